// Numbers in bytes at a place of a slice: the fields of registers and reports.
#![tactic(auto)]

ghost use Rattle.std.specs.Prelude.{◌≡◌, ◌+◌, ◌≤◌, length};
ghost use Rattle.basis.specs.Bytes.{bytes_of, starts_with, Written};
ghost use Rattle.fields.specs.Fields.{Field};

// The number of N bytes at a place. The compiler makes one load of it, before it mixes the bytes with what is computed of them.
pub fn number_at<const N: usize>(s: &[u8], at: usize) -> u64
    requires { (N ≤ 8) × (at + N ≤ length s.now) }
    ensures { Field N s.now at result }
{
    let mut word = [0; 8];
    word[..N].copy_from_slice(&s[at..at + N]);
    u64::from_le_bytes(word)
}

// The N lowest bytes of v, lowest first, over what stands at a place.
pub fn put_number<const N: usize>(buf: &mut [u8], at: usize, v: u64)
    requires { (N ≤ 8) × (at + N ≤ length buf.old) }
    ensures { Written buf.old at (bytes_of N v) buf.new }
{
    let word = v.to_le_bytes();
    buf[at..at + N].copy_from_slice(&word[..N]);
}

// A run of k zeros: the number zero in k bytes.
pub fn put_zeros(buf: &mut [u8], at: usize, k: usize)
    requires { at + k ≤ length buf.old }
    ensures { Written buf.old at (bytes_of k 0) buf.new }
{
    buf[at..at + k].fill(0);
}

// Bytes, as a tag, over what stands at a place. It is a loop, since the library's copy of slices that the compiler does not know apart is a
// `memmove`, a name that the archive for C does not want from outside.
pub fn put_bytes(buf: &mut [u8], at: usize, bytes: &[u8])
    requires { at + length bytes.now ≤ length buf.old }
    ensures { Written buf.old at bytes.now buf.new }
{
    for (i, byte) in bytes.iter().enumerate() {
        buf[at + i] = *byte;
    }
}

// Whether bytes begin with a tag.
pub fn starts_with(s: &[u8], tag: &[u8]) -> bool
    requires { length tag.now ≤ length s.now }
    ensures { result ≡ starts_with tag.now s.now }
{
    s.starts_with(tag)
}
