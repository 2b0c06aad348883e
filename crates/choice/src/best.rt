// Which of two readings is the better.
ghost use Rattle.std.specs.Prelude.{◌≡◌};
ghost use Rattle.search.specs.Choice.{beats_by};

// Whether a newcomer displaces the holder, by how many positions each repairs and by its cn0: fewer, or as many and a strictly greater cn0.
pub fn displaces(new: u32, new_cn0: f32, held: u32, held_cn0: f32) -> bool
    ensures { result ≡ beats_by new new_cn0 held held_cn0 }
{
    new < held || (new == held && held_cn0 < new_cn0)
}
