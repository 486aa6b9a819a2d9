// A release's payload: three bytes, the component number in two of them, and whether its menu starts expanded.
ghost use Rattle.std.specs.Prelude.{◌≤◌, ◌≡◌, length};
ghost use Rattle.desk.specs.Payload.{payload_width, component_in, is_release};

// How many bytes a release's payload has.
pub const PAYLOAD_BYTES: usize = 3;

// Whether a payload is a release's: it has three bytes, and the third is 0 or 1.
pub fn is_release(payload: &[u8]) -> bool
    ensures { result ≡ is_release payload.now }
{
    payload.len() == PAYLOAD_BYTES && payload[2] <= 1
}

// The component number that a payload says.
pub fn component_in(payload: &[u8]) -> u16
    requires { payload_width ≤ length payload.now }
    ensures { result ≡ component_in payload.now }
{
    u16::from(payload[0]) + 256 * u16::from(payload[1])
}
