// The header of the transfer frame data field: construction rule, protocol id, and a pointer for rules 0 to 2.
#![tactic(auto)]

ghost use Rattle.std.specs.Prelude.{◌≡◌};
ghost use Rattle.uslp_kinds.specs.Outcome.{done, leaving};
ghost use Rattle.uslp_data_field_header.specs.Field.{pointer_bad, len_field, field_making, with_protocol, field_checking, field_reading, field_writing};
ghost use Rattle.uslp_kinds.specs.Answers.{paper};

use uslp_kinds::{ConstructionRule, Refusal, UslpProtocolId};
use uslp_octets::put_be_number;

#[derive(Clone, Copy, Debug, PartialEq, Eq)]
pub struct TransferFrameDataFieldHeader {
    pub construction_rule: ConstructionRule,
    pub uslp_protocol_id: UslpProtocolId,
    pub fhp_or_lvo: Option<u16>,
}

impl TransferFrameDataFieldHeader {
    // Refuses BAD_POINTER with the rule.
    #[tactic(auto, unfolding(crate::specs::Field::field_making, crate::specs::Field::field_checking))]
    pub fn new(
        construction_rule: ConstructionRule,
        uslp_protocol_id: UslpProtocolId,
        fhp_or_lvo: Option<u16>,
    ) -> Result<TransferFrameDataFieldHeader, Refusal>
        ensures { paper result ≡ field_making construction_rule uslp_protocol_id fhp_or_lvo }
    {
        TransferFrameDataFieldHeader {
            construction_rule,
            uslp_protocol_id,
            fhp_or_lvo,
        }
        .checked()
    }

    pub fn construction_rule(self) -> ConstructionRule
        ensures { result ≡ self.construction_rule }
    {
        self.construction_rule
    }

    pub fn uslp_protocol_id(self) -> UslpProtocolId
        ensures { result ≡ self.uslp_protocol_id }
    {
        self.uslp_protocol_id
    }

    pub fn fhp_or_lvo(self) -> Option<u16>
        ensures { result ≡ self.fhp_or_lvo }
    {
        self.fhp_or_lvo
    }

    pub fn len_header(self) -> usize
        ensures { result ≡ len_field self }
    {
        if self.construction_rule.applicable_to_fixed_len_tfdz() {
            3
        } else {
            1
        }
    }

    // The header itself where it can be written, which callers go on with, and no type that says so. Refuses BAD_POINTER with the rule.
    #[tactic(auto, unfolding(crate::specs::Field::field_checking))]
    pub fn checked(self) -> Result<TransferFrameDataFieldHeader, Refusal>
        ensures { paper result ≡ field_checking self }
    {
        if pointer_bad(self.construction_rule, self.fhp_or_lvo) {
            return Err(Refusal::BadPointer(self.construction_rule));
        }
        Ok(self)
    }

    // Refuses SHORT_SOURCE (one octet, then three for rules 0 to 2), then BAD_PROTOCOL.
    #[tactic(auto, unfolding(crate::specs::Field::field_reading))]
    pub fn from_bytes(buf: &[u8]) -> Result<TransferFrameDataFieldHeader, Refusal>
        ensures { paper result ≡ field_reading buf.now }
    {
        let found = buf.len();
        if found < 1 {
            return Err(Refusal::ShortSource { found, expected: 1 });
        }
        let first = buf[0];
        let rule = ConstructionRule::from(first / 32);
        if rule.applicable_to_fixed_len_tfdz() {
            if found < 3 {
                return Err(Refusal::ShortSource { found, expected: 3 });
            }
            return with_protocol(rule, first % 32, Some(u16::from_be_bytes([buf[1], buf[2]])));
        }
        with_protocol(rule, first % 32, None)
    }

    // Refuses BAD_POINTER, then SHORT_TARGET.
    #[tactic(auto, unfolding(crate::specs::Field::field_writing, crate::specs::Field::field_checking))]
    pub fn write_to_slice(self, buf: &mut [u8]) -> Result<usize, Refusal>
        ensures { leaving (paper result) buf.new ≡ field_writing self buf.old }
    {
        put_header(self.checked()?, buf)
    }
}

fn pointer_bad(rule: ConstructionRule, pointer: Option<u16>) -> bool
    ensures { result ≡ pointer_bad rule pointer }
{
    pointer.is_some() != rule.applicable_to_fixed_len_tfdz()
}

// The header with the protocol id of this number, if it is known.
fn with_protocol(
    rule: ConstructionRule,
    number: u8,
    pointer: Option<u16>,
) -> Result<TransferFrameDataFieldHeader, Refusal>
    ensures { paper result ≡ with_protocol rule number pointer }
{
    Ok(TransferFrameDataFieldHeader {
        construction_rule: rule,
        uslp_protocol_id: UslpProtocolId::try_from(number)?,
        fhp_or_lvo: pointer,
    })
}

// A header that can be written, over the front of the octets.
#[tactic(auto, unfolding(crate::specs::Field::field_writing, crate::specs::Field::field_checking))]
fn put_header(header: TransferFrameDataFieldHeader, buf: &mut [u8]) -> Result<usize, Refusal>
    requires { field_checking header ≡ done header }
    ensures { leaving (paper result) buf.new ≡ field_writing header buf.old }
{
    let found = buf.len();
    let expected = header.len_header();
    if found < expected {
        return Err(Refusal::ShortTarget { found, expected });
    }
    buf[0] = u8::from(header.construction_rule) * 32 + u8::from(header.uslp_protocol_id);
    if let Some(pointer) = header.fhp_or_lvo {
        put_be_number(u64::from(pointer), &mut buf[1..3]);
    }
    Ok(expected)
}
