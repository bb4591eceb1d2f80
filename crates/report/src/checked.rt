//! The listing of a plan, and the text that the program checker prints.
ghost use Rattle.std.specs.Prelude.{◌≡◌, ℕ, ◌≤◌, true, length, is_ok, IfOk};
ghost use Rattle.plan.specs.Born.{state_of};
ghost use Rattle.report.specs.Checked.{Checked, Judgement, Listed};

use super::judged::Adopted;
use super::listing::write_listing;
use super::refused::write_refusal;
use super::times::Times;
use arbiter::arbiter::Arbiter;
use arbiter::station::station;
use plan::plan::Plan;
use tables::room::Room;
use terms::numbers::Picos;
use terms::refusal::Refusal;

// `listing`, `check_text` and `write_listing` are called by themselves, so each says when it succeeds and that its answer
// fits the buffer: a type for the answer would have to be taken apart by every caller
/// Writes one line for each task of a plan, its number and its time, or 0, into the front of a buffer, and tells their
/// length; refuses a buffer that is too short, and then writes nothing.
pub fn listing<B: Arbiter>(plan: &Plan, out: &mut [u8], arbiter: &B) -> Result<usize, Refusal>
    ensures enough { 3648 ≤ length out.old → is_ok result ≡ true }
    ensures within { IfOk result (λ n. n ≤ length out.old) }
    ensures listed { Listed (B.bound arbiter.now) (state_of plan.now) out.old result out.new }
{
    let count = plan.task_count();
    let mut entries = [Picos::NONE; 64];
    plan.times(&mut entries, arbiter)?;
    write_listing(&Times::new(entries, count), out)
}

/// The plan of a table file, once it has adopted an allocation under the pile of our station; or the refusal by the
/// file or by the plan.
// the file and the allocation stay two parameters: the C function and the programs pass them so
pub fn judge(room: Room, file: &[u8], allocation: &[u8]) -> Result<Adopted, Refusal>
    ensures { Judgement file.now allocation.now result }
{
    let mut plan = Plan::from_file(room, file)?;
    let pile = station(plan.cores())?;
    plan.adopt(allocation, &pile)?;
    Ok(Adopted { plan, pile })
}

/// Writes what checker prints of a table file and an allocation into the front of a buffer, and tells its length: the
/// listing of the plan that has adopted the allocation, or the line of the refusal. Refuses a buffer that is too short
/// for that text, and then writes nothing.
pub fn check_text(
    room: Room,
    file: &[u8],
    allocation: &[u8],
    out: &mut [u8],
) -> Result<usize, Refusal>
    ensures enough { 3648 ≤ length out.old → is_ok result ≡ true }
    ensures within { IfOk result (λ n. n ≤ length out.old) }
    ensures checked { Checked file.now allocation.now out.old result out.new }
{
    match judge(room, file, allocation) {
        Ok(adopted) => listing(&adopted.plan, out, &adopted.pile),
        Err(refusal) => write_refusal(&refusal, out),
    }
}
