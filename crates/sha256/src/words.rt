// The functions on words of FIPS 180-4, sections 3.2 and 4.1.2. A rotation is two shifts joined, and no `rotate_right`: the form that the
// scope asks for ("its rotations are shifts joined").
ghost use Rattle.std.specs.Prelude.{◌≡◌, ◌+◌, ◌*◌};
ghost use Rattle.sha256.specs.Sha256.{Ch, Maj, Σ₀, Σ₁, σ₀, σ₁};

// The word of four bytes, the highest first.
pub fn word_of(a: u8, b: u8, c: u8, d: u8) -> u32
    ensures { result ≡ ((a * 256 + b) * 256 + c) * 256 + d }
{
    u32::from_be_bytes([a, b, c, d])
}

// Ch, (4.2): where x has a one y's bit, else z's.
pub fn ch(x: u32, y: u32, z: u32) -> u32
    ensures { result ≡ Ch x y z }
{
    (x & y) ^ (!x & z)
}

// Maj, (4.3): the bit that two of the three have.
pub fn maj(x: u32, y: u32, z: u32) -> u32
    ensures { result ≡ Maj x y z }
{
    (x & y) ^ (x & z) ^ (y & z)
}

// Σ₀, (4.4).
pub fn big_sigma0(x: u32) -> u32
    ensures { result ≡ Σ₀ x }
{
    (x >> 2 | x << 30) ^ (x >> 13 | x << 19) ^ (x >> 22 | x << 10)
}

// Σ₁, (4.5).
pub fn big_sigma1(x: u32) -> u32
    ensures { result ≡ Σ₁ x }
{
    (x >> 6 | x << 26) ^ (x >> 11 | x << 21) ^ (x >> 25 | x << 7)
}

// σ₀, (4.6).
pub fn small_sigma0(x: u32) -> u32
    ensures { result ≡ σ₀ x }
{
    (x >> 7 | x << 25) ^ (x >> 18 | x << 14) ^ x >> 3
}

// σ₁, (4.7).
pub fn small_sigma1(x: u32) -> u32
    ensures { result ≡ σ₁ x }
{
    (x >> 17 | x << 15) ^ (x >> 19 | x << 13) ^ x >> 10
}
