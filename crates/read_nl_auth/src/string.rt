// One string of an NL_AUTH message, and strings A and B: the bytes up to the first zero byte.
ghost use Rattle.std.specs.Prelude.{◌≡◌, ◌≤◌, length};
ghost use Rattle.field.specs.Field.{PartAt};
ghost use Rattle.read_nl_auth.specs.NlAuth.{string_bytes, string_start, string_length, string_at, string_under};

// Where a string stands in its message, and how many jumps were taken in reading it. One that isn't there has 0 in all three.
#[derive(Clone, Copy, Default)]
pub struct NlString {
    pub offset: u32,
    pub len: u16,
    pub jumps: u8,
}

impl NlString {
    // The string's own bytes, as a part of the message; of a record that doesn't fit this message, the empty part.
    #[tactic(auto, unfolding(crate::specs::NlAuth::string_bytes, crate::specs::NlAuth::string_start))]
    pub fn bytes(self, msg: &[u8]) -> &[u8]
        ensures content { result.now ≡ string_bytes msg.now self }
        ensures place { PartAt result.ref_ptr msg.entry.ref_ptr (string_start msg.now self) }
    {
        let at = self.offset as usize;
        let end = at + self.len as usize;
        if end <= msg.len() {
            return &msg[at..end];
        }
        &msg[..0]
    }
}

// How many bytes stand before the first zero byte; all of them if there is none.
pub fn string_length(s: &[u8]) -> usize
    ensures { result ≡ string_length s.now }
{
    s.iter().position(|b| *b == 0).unwrap_or(s.len())
}

// The string from `at` on.
#[tactic(auto, unfolding(crate::specs::NlAuth::string_at))]
fn string_at(msg: &[u8], at: usize) -> Option<(NlString, usize)>
    requires { (at ≤ length msg.now) × (length msg.now ≤ 65535) }
    ensures { result ≡ string_at msg.now at }
{
    let rest = &msg[at..];
    let len = string_length(rest);
    if len < rest.len() {
        let string = NlString {
            offset: at as u32,
            len: len as u16,
            jumps: 0,
        };
        return Some((string, at + len + 1));
    }
    None
}

// The string of a bit, which stands at `at` if the bit is set.
#[tactic(auto, unfolding(crate::specs::NlAuth::string_under))]
pub(crate) fn string_under(msg: &[u8], at: usize, set: bool) -> Option<(NlString, usize)>
    requires { (at ≤ length msg.now) × (length msg.now ≤ 65535) }
    ensures { result ≡ string_under set msg.now at }
{
    if set {
        return string_at(msg, at);
    }
    Some((NlString::default(), at))
}
