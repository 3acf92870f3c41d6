// The texts of `text`, written into lent slices of any lengths: each function has `text` write its
// text into a buffer of its own, copies that, and answers the place after it.
#![tactic(auto)]

ghost use Rattle.std.specs.Prelude.{◌+◌, ◌<◌, ◌≤◌, length, IfSome};
ghost use Rattle.limits.specs.Limits.{longest};
ghost use Rattle.text.specs.Lent.{StandsAt};
ghost use Rattle.text.specs.Text.{cost_text, plan_text, refusal_text, found_text, longest_text};

use arrayvec::ArrayVec;
use book::Refusal;
use routes::Plan;
use text::Text;

// How many bytes the line of a plan's weight and hops has at most.
const LONGEST_COST: usize = 57;

// The bytes `s`, from the place `at` on.
pub fn word(s: &[u8], out: &mut [u8], at: usize) -> usize
    requires { at + length s.now ≤ length out.old }
    ensures { StandsAt s.now at out.old result out.new }
{
    let end = at + s.len();
    out[at..end].copy_from_slice(s);
    end
}

// The line of a plan's weight and hops, from the place `at` on.
pub fn cost_text(plan: Plan, out: &mut [u8], at: usize) -> usize
    requires { at + 57 ≤ length out.old }
    ensures written { StandsAt (cost_text plan.weight plan.hops) at out.old result out.new }
    ensures upper_bound { result ≤ at + 57 }
{
    let mut line = ArrayVec::<u8, LONGEST_COST>::new();
    text::cost_text(plan, &mut line);
    word(&line, out, at)
}

// The two lines of a plan, in the front of `out`; `walk` holds its vertices, a byte each.
pub fn plan_text(plan: Plan, walk: &[u8], out: &mut [u8]) -> usize
    requires some_vertex { 1 ≤ length walk.now }
    requires walk_len_bound { length walk.now ≤ longest }
    requires longest_text_in_bounds { longest_text ≤ length out.old }
    ensures { StandsAt (plan_text plan.weight plan.hops walk.now) 0 out.old result out.new }
{
    let mut lines = Text::new();
    text::plan_text(plan, walk, &mut lines);
    word(&lines, out, 0)
}

// The line of a refusal, with its place where it has one, in the front of `out`.
pub fn refusal_text(r: Refusal, out: &mut [u8]) -> usize
    requires { longest_text ≤ length out.old }
    ensures { StandsAt (refusal_text r) 0 out.old result out.new }
{
    let mut line = Text::new();
    text::refusal_text(r, &mut line);
    word(&line, out, 0)
}

// The text of what is found, in the front of `out`; a walk that is found stands in the front of
// `walk`, a byte for each vertex.
pub fn found_text(found: Option<Plan>, walk: &[u8], out: &mut [u8]) -> usize
    requires standing { IfSome found (λ p. p.hops < length walk.now) }
    requires walk_len_bound { length walk.now ≤ longest }
    requires longest_text_in_bounds { longest_text ≤ length out.old }
    ensures { StandsAt (found_text found walk.now) 0 out.old result out.new }
{
    let mut answer = Text::new();
    text::found_text(found, walk, &mut answer);
    word(&answer, out, 0)
}
