// Sentences by patterns: a pattern is a text in which a mark stands for something of the request or for the fact of the reason.
ghost use Rattle.std.specs.Prelude.{[], ◌∷◌, ◌+◌, ◌≤◌, length};
ghost use Rattle.lines.specs.Scan.{Put};
ghost use Rattle.sentence.specs.Pattern.{piece_of, filled, widest, room};

use crate::count::put_count;
use crate::op_name::put_op_name;
use decimal::put_number;
use format::Header;
use lines::put_mark;

// A character for itself; the index after it.
fn put_character(c: u8, from: usize, out: &mut [u8]) -> usize
    requires { from + 1 ≤ length out.old }
    ensures put { Put from (c ∷ []) out.old result out.new }
    ensures upper_bound { result ≤ from + 1 }
{
    put_mark(c, from, out);
    from + 1
}

// What a character of a pattern stands for; the index after it.
#[tactic(auto, unfolding(crate::specs::Pattern::piece_of, crate::specs::Pattern::widest))]
fn put_piece(h: Header, n: u64, c: u8, from: usize, out: &mut [u8]) -> usize
    requires { from + widest c ≤ length out.old }
    ensures put { Put from (piece_of h n c) out.old result out.new }
    ensures upper_bound { result ≤ from + widest c }
{
    match c {
        b'@' => put_number(h.host, from, out),
        b'#' => put_number(h.pid, from, out),
        b'^' => put_number(h.arg1, from, out),
        b'!' => put_op_name(h.cmd, from, out),
        b'%' => put_count(h.arg2 as u64, from, out),
        b'$' => put_number(n, from, out),
        b'+' => put_count(n, from, out),
        b'=' => put_number((h.arg1 as u64 + h.arg2 as u64).saturating_sub(n), from, out),
        b'<' => put_number((h.arg1 as u64).saturating_sub(n), from, out),
        _ => put_character(c, from, out),
    }
}

// A pattern with its marks filled in; the index after it.
pub(crate) fn put_filled(h: Header, n: u64, pattern: &[u8], from: usize, out: &mut [u8]) -> usize
    requires { from + room pattern.now ≤ length out.old }
    ensures put { Put from (filled h n pattern.now) out.old result out.new }
    ensures upper_bound { result ≤ from + room pattern.now }
{
    let mut at = from;
    for c in pattern {
        at = put_piece(h, n, *c, at, out);
    }
    at
}
