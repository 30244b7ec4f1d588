// Big-endian fields of a slice, read and written by their type.
ghost use Rattle.std.specs.Prelude.{◌≡◌, ℕ, ◌+◌, ◌≤◌, length};
ghost use Rattle.wire.specs.Field.{be, bytes_of};
ghost use Rattle.wire.specs.Memory.{pasted};

// A type that a field can have.
pub trait Field: Copy {
    // How many bytes it takes, and the number that it stands for.
    ghost width: { ℕ };

    ghost value: { Self → ℕ };

    // The field at `i`.
    fn read(s: &[u8], i: usize) -> Self
        requires { i + width ≤ length s.now }
        ensures { value result ≡ be width s.now i };

    // Writes the field at `i`.
    fn write(self, s: &mut [u8], i: usize)
        requires { i + width ≤ length s.old }
        ensures { s.new ≡ pasted s.old i (bytes_of width (value self)) width };
}

// Three impls by hand: the gate takes none that a macro of this repository writes.
impl Field for u8 {
    ghost width = { 1 };

    ghost value = { λ x. x };

    fn read(s: &[u8], i: usize) -> u8 {
        s[i]
    }

    fn write(self, s: &mut [u8], i: usize) {
        s[i] = self;
    }
}

impl Field for u16 {
    ghost width = { 2 };

    ghost value = { λ x. x };

    fn read(s: &[u8], i: usize) -> u16 {
        u16::from_be_bytes([s[i], s[i + 1]])
    }

    fn write(self, s: &mut [u8], i: usize) {
        s[i..i + 2].copy_from_slice(&self.to_be_bytes());
    }
}

impl Field for u32 {
    ghost width = { 4 };

    ghost value = { λ x. x };

    fn read(s: &[u8], i: usize) -> u32 {
        u32::from_be_bytes([s[i], s[i + 1], s[i + 2], s[i + 3]])
    }

    fn write(self, s: &mut [u8], i: usize) {
        s[i..i + 4].copy_from_slice(&self.to_be_bytes());
    }
}
