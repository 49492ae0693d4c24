//! Where names stand in a text.

ghost use Rattle.std.specs.Prelude.{◌≡◌};
ghost use Rattle.ll_lines.specs.Views.{text_of};

/// A token that is a name or a number, by the places of its first byte and of the byte behind its last.
#[derive(Clone, Copy, PartialEq, Eq, Debug, Drop)]
pub struct Name {
    pub start: u32,
    pub end: u32,
}

impl Name {
    /// The bytes of the token; what would lie outside of the text is left out.
    pub fn text(self, bytes: &[u8]) -> &[u8]
        ensures { result.now ≡ text_of bytes.now self }
    {
        let end = if (self.end as usize) < bytes.len() {
            self.end as usize
        } else {
            bytes.len()
        };
        let start = self.start as usize;
        if start < end {
            &bytes[start..end]
        } else {
            &bytes[0..0]
        }
    }
}
