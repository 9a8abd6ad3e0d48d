// The IDs of packets.
ghost use Rattle.std.specs.Prelude.{◌≡◌};
ghost use Rattle.packets.specs.Id.{next_id};

// The ID of the GoReply to a Go of this ID.
pub fn next_id(id: u32) -> u32
    ensures { result ≡ next_id id }
{
    id.wrapping_add(1)
}
