// The octets of a form, put one behind the other in an array of their own, so that nothing is written where saving is refused.
ghost use Rattle.std.specs.Prelude.{◌≡◌, [], ◌++◌, ◌+◌, ◌≤◌, ◌<◌, ◌^◌, length};
ghost use Rattle.uslp_octets.specs.Octets.{octets};

use crate::MAX_FORM_LEN;
use std::marker::Model;
use uslp_octets::put_be_number;

// The number is written in place: an ArrayVec would take it by a copy, with an answer to let go.
#[derive(Drop)]
pub(crate) struct Out {
    cells: [u8; MAX_FORM_LEN],
    len: usize,
}

impl Model for Out {
    ghost use Rattle.std.specs.Prelude.{ℕ, List, ◌≤◌, take};

    ghost Value = { List ℕ };

    ghost view = { λ out. take out.len out.cells };

    ghost invariant = { λ out. out.len ≤ 362 };
}

impl Out {
    pub(crate) fn new() -> Out
        ensures { result ≡ [] }
    {
        Out {
            cells: [0; MAX_FORM_LEN],
            len: 0,
        }
    }

    pub(crate) fn as_slice(&self) -> &[u8]
        ensures { result.now ≡ self.now }
    {
        &self.cells[..self.len]
    }

    // A number's low octets behind those put.
    pub(crate) fn put(&mut self, value: u64, width: usize)
        requires { length self.old + width ≤ 362 }
        ensures { (self.new ≡ self.old ++ octets width value) × (value < 2 ^ 64) }
    {
        let end = self.len + width;
        put_be_number(value, &mut self.cells[self.len..end]);
        self.len = end;
    }
}
