// Text into a lent buffer, from any index on.
ghost use Rattle.std.specs.Prelude.{◌≡◌, [], ◌∷◌, ◌+◌, ◌≤◌, ◌<◌, length};
ghost use Rattle.lines.specs.Scan.{kept, Put};

// Text from an index on; the index after it.
pub fn put(text: &[u8], at: usize, out: &mut [u8]) -> usize
    requires { at + length text.now ≤ length out.old }
    ensures { Put at text.now out.old result out.new }
{
    let end = at + text.len();
    out[at..end].copy_from_slice(text);
    end
}

// One character at an index.
#[tactic(auto, unfolding(crate::specs::Scan::kept))]
pub fn put_mark(mark: u8, at: usize, out: &mut [u8])
    requires { at < length out.old }
    ensures { out.new ≡ kept at (mark ∷ []) out.old }
{
    out[at] = mark;
}
