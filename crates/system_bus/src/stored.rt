// The numbers that the memory holds, little-endian.
#![tactic(auto, using(crate::proofs::Fronts::loaded, crate::proofs::Fronts::stored))]

ghost use Rattle.std.specs.Prelude.{ℕ, ◌≡◌, ◌≤◌, refl};
ghost use Rattle.std.proofs.Common.{lit≤};
ghost use Rattle.system_bus.specs.Bytes.{front, room, with_front};

pub trait Stored: Copy {
    // How many bytes it has; the number that a value is, and the value that a number is.
    ghost SIZE: { ℕ };

    ghost value: { Self → ℕ };

    ghost of: { ℕ → Self };

    const SIZE: usize;

    // The value in the first bytes, if there are enough.
    fn load(bytes: &[u8]) -> Option<Self>
        ensures { result ≡ front of SIZE bytes.now };

    fn store(self, bytes: &mut [u8]) -> Option<()>
        ensures { (result ≡ room SIZE bytes.old) × (bytes.new ≡ with_front SIZE bytes.old (value self)) };

    ghost at_most_8: { SIZE ≤ 8 };

    ghost kept: { (v : Self) → of (value v) ≡ v };
}

// Written out for each, since no macro may write an impl, and std has no trait of these conversions.
impl Stored for u8 {
    ghost SIZE = { 1 };

    ghost value = { λ v. v };

    ghost of = { λ v. v };

    const SIZE: usize = 1;

    fn load(bytes: &[u8]) -> Option<u8> {
        Some(u8::from_le_bytes(*bytes.first_chunk()?))
    }

    fn store(self, bytes: &mut [u8]) -> Option<()> {
        *bytes.first_chunk_mut()? = u8::to_le_bytes(self);
        Some(())
    }

    ghost at_most_8 = { lit≤ tt };

    ghost kept = { λ v. refl };
}

impl Stored for u16 {
    ghost SIZE = { 2 };

    ghost value = { λ v. v };

    ghost of = { λ v. v };

    const SIZE: usize = 2;

    fn load(bytes: &[u8]) -> Option<u16> {
        Some(u16::from_le_bytes(*bytes.first_chunk()?))
    }

    fn store(self, bytes: &mut [u8]) -> Option<()> {
        *bytes.first_chunk_mut()? = u16::to_le_bytes(self);
        Some(())
    }

    ghost at_most_8 = { lit≤ tt };

    ghost kept = { λ v. refl };
}

impl Stored for u32 {
    ghost SIZE = { 4 };

    ghost value = { λ v. v };

    ghost of = { λ v. v };

    const SIZE: usize = 4;

    fn load(bytes: &[u8]) -> Option<u32> {
        Some(u32::from_le_bytes(*bytes.first_chunk()?))
    }

    fn store(self, bytes: &mut [u8]) -> Option<()> {
        *bytes.first_chunk_mut()? = u32::to_le_bytes(self);
        Some(())
    }

    ghost at_most_8 = { lit≤ tt };

    ghost kept = { λ v. refl };
}

impl Stored for u64 {
    ghost SIZE = { 8 };

    ghost value = { λ v. v };

    ghost of = { λ v. v };

    const SIZE: usize = 8;

    fn load(bytes: &[u8]) -> Option<u64> {
        Some(u64::from_le_bytes(*bytes.first_chunk()?))
    }

    fn store(self, bytes: &mut [u8]) -> Option<()> {
        *bytes.first_chunk_mut()? = u64::to_le_bytes(self);
        Some(())
    }

    ghost at_most_8 = { lit≤ tt };

    ghost kept = { λ v. refl };
}
