// The letters that words and keys are made of. Named, and no byte literals, since words and keys are recognised by slice
// patterns: `[A, T]` is the word `at`, and `[F, EQUALS, rest @ ..]` the key `f=` with what follows it. So each reads as it is
// written.

pub const A: u8 = b'a';

pub const B: u8 = b'b';

pub const C: u8 = b'c';

pub const D: u8 = b'd';

pub const E: u8 = b'e';

pub const F: u8 = b'f';

pub const G: u8 = b'g';

pub const H: u8 = b'h';

pub const I: u8 = b'i';

pub const K: u8 = b'k';

pub const L: u8 = b'l';

pub const M: u8 = b'm';

pub const N: u8 = b'n';

pub const O: u8 = b'o';

pub const P: u8 = b'p';

pub const R: u8 = b'r';

pub const S: u8 = b's';

pub const T: u8 = b't';

pub const U: u8 = b'u';

pub const V: u8 = b'v';

pub const W: u8 = b'w';

pub const X: u8 = b'x';
