// A line as its characters come.

// The most characters that a line may have.
const LINE_ROOM: usize = 300000;

// How many characters have come stands beside them, since the memory is fixed: no line can lack it. It is more than their room where
// the line is too long.
#[derive(Drop)]
pub(crate) struct Line {
    characters: [u8; LINE_ROOM],
    len: usize,
}

impl Line {
    pub(crate) fn new() -> Line {
        Line {
            characters: [0; LINE_ROOM],
            len: 0,
        }
    }

    pub(crate) fn push(&mut self, c: u8) {
        match self.characters.get_mut(self.len) {
            Some(cell) => {
                *cell = c;
                self.len += 1;
            }
            None => self.len = LINE_ROOM + 1,
        }
    }

    pub(crate) fn clear(&mut self) {
        self.len = 0;
    }

    pub(crate) fn is_empty(&self) -> bool {
        self.len == 0
    }

    // Nothing for a line that is too long: it is no command, as an empty one.
    pub(crate) fn text(&mut self) -> &mut [u8] {
        let len = self.len;
        let characters = &mut self.characters;
        if len > LINE_ROOM {
            return &mut [];
        }
        &mut characters[..len]
    }
}
