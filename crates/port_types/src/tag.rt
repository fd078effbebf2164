ghost use Rattle.std.specs.Prelude.{◌≡◌, ◌≤◌};
ghost use Rattle.port_types.specs.Tag.{IsTagWidth, tag_width};

/// The least number of bits, at least 1, in which `tags` tags have different numbers, for 1 to 256 tags. Takes no memory.
pub fn tag_width(tags: u16) -> u8
    requires some { 1 ≤ tags }
    requires few { tags ≤ 256 }
    ensures width { result ≡ tag_width tags }
    ensures least { IsTagWidth tags result }
{
    match tags {
        0..=2 => 1,
        3..=4 => 2,
        5..=8 => 3,
        9..=16 => 4,
        17..=32 => 5,
        33..=64 => 6,
        65..=128 => 7,
        _ => 8,
    }
}
