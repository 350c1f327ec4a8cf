// How messages are numbered.
ghost use Rattle.std.specs.Prelude.{◌≡◌, ◌+◌, ◌<◌, ◌++◌, ◌^◌, ℕ, All, get_or, if◌then◌else◌, length, nat_lt, slice_index, slice_set, OnOk};
ghost use Rattle.gx_store.specs.declared.mark.Mark.TheVariants.{Sent};
ghost use Rattle.gx_rules.specs.Sending.{counted, counted_all, numbered};

use gx_ids::Mem;
use gx_msg::Out;
use gx_store::Mark;

// The number of a link's next message.
fn count(sent: &mut Vec<u64>, node: usize) -> u64
    requires inside { node < length sent.old.items }
    requires room { get_or sent.old.items node 0 + 1 < 2 ^ 64 }
    ensures number { result ≡ get_or sent.old.items node 0 + 1 }
    ensures sent { sent.new.items ≡ slice_set sent.old.items node result }
{
    let number = sent[node] + 1;
    sent[node] = number;
    number
}

// A message gets the next number of its link.
fn send_one(sent: &mut Vec<u64>, out: Out) -> Mark
    requires inside { out.node.0 < length sent.old.items }
    requires room { get_or sent.old.items out.node.0 0 + 1 < 2 ^ 64 }
    ensures mark { result ≡ Sent out.node (slice_index sent.old.items out.node.0 + 1) out.message }
    ensures sent { slice_index sent.new.items ≡ counted (slice_index sent.old.items) out }
    ensures links { length sent.new.items ≡ length sent.old.items }
    ensures few { (most : ℕ) → All (λ n. n < most) sent.old.items → All (λ n. n < most + 1) sent.new.items }
{
    let Out { node, message } = out;
    let place = usize::from(node.0);
    let number = count(sent, place);
    Mark::Sent {
        to: node,
        number,
        message,
    }
}

// Each message has the next number of its link. Their list is left empty, with its memory.
pub(crate) fn number(sent: &mut Vec<u64>, outs: &mut Vec<Out>, marks: &mut Vec<Mark>) -> Mem<()>
    requires room { All (λ n. n < 2 ^ 62 + length marks.old.items) sent.old.items }
    requires links { All (λ out. out.node.0 < length sent.old.items) outs.old.items }
    ensures marks { OnOk result (marks.new.items ≡ marks.old.items ++ numbered (slice_index sent.old.items) outs.old.items) }
    ensures sent { OnOk result (slice_index sent.new.items ≡ counted_all (slice_index sent.old.items) outs.old.items) }
    ensures links { OnOk result (length sent.new.items ≡ length sent.old.items) }
    ensures room { OnOk result (All (λ n. n < 2 ^ 62 + length marks.new.items) sent.new.items) }
{
    marks.reserve_exact(outs.len())?;
    outs.reverse();
    while let Some(out) = outs.pop() {
        let mark = send_one(sent, out);
        marks.push_reserved(mark);
    }
    Ok(())
}

// The clock after a message of a clock.
pub(crate) fn clock_after(clock: u64, heard: u64) -> u64
    requires own { clock < 2 ^ 62 }
    requires heard { heard < 2 ^ 62 }
    ensures { result ≡ (if nat_lt clock heard then heard else clock) + 1 }
{
    clock.max(heard) + 1
}
