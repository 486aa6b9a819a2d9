// The padded message of FIPS 180-4, section 5.1.1, byte by byte: nothing is copied.
ghost use Rattle.std.specs.Prelude.{◌≡◌, ◌-◌, ◌*◌, ◌/◌, ◌%◌, ◌^◌, ◌<◌, slice_index};
ghost use Rattle.sha256.specs.Sha256.{padded};

// Byte j of the eight that say the length in bits of a message of n bytes.
fn length_byte(n: usize, j: usize) -> u8
    requires { j < 8 }
    ensures { result ≡ n * 8 % 2 ^ 64 / 2 ^ (8 * (7 - j)) % 256 }
{
    (((n << 3) >> (8 * (7 - j))) % 256) as u8
}

// Byte i of the padded message, and 0 past its end.
pub fn byte_at(s: &[u8], i: usize) -> u8
    ensures { result ≡ slice_index (padded s.now) i }
{
    let n = s.len();
    if i < n {
        return s[i];
    }
    if i == n {
        return 128;
    }
    let place = (n + 8) / 64 * 64 + 56;
    if i < place {
        return 0;
    }
    let j = i - place;
    if j < 8 {
        return length_byte(n, j);
    }
    0
}
