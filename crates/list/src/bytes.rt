// Little-endian numbers in a list's bytes.
ghost use Rattle.std.specs.Prelude.{◌≡◌, ◌+◌, ◌≤◌, length};
ghost use Rattle.model.specs.Format.{u16_at, u32_at};

pub fn u16_at(list: &[u8], i: usize) -> u16
    requires { i + 2 ≤ length list.now }
    ensures { result ≡ u16_at list.now i }
{
    u16::from_le_bytes([list[i], list[i + 1]])
}

pub fn u32_at(list: &[u8], i: usize) -> u32
    requires { i + 4 ≤ length list.now }
    ensures { result ≡ u32_at list.now i }
{
    u32::from_le_bytes([list[i], list[i + 1], list[i + 2], list[i + 3]])
}
