//! What a lender knows of the memory that he lent to a queue, once the queue is gone.
ghost use Rattle.std.specs.Prelude.{◌≡◌, ◌==◌, Err, length, map, if◌then◌else◌};
ghost use Rattle.row.specs.Records.{change_of, change_record, memory_refusal};
ghost use Rattle.waiting.specs.Limits.{queue_limit};
ghost use Rattle.waiting.specs.Policies.{nothing_waits, listed, put_answer, after_put};
ghost use Rattle.waiting.specs.Queues.{queue, queue_rows};

use crate::buffer::Waiting;
use crate::queue::{QUEUE_LIMIT, Queue};
use row::{Change, Refusal, Tap, Value};

/// Lends memory to a queue, puts one delta, and lets the queue go. The memory then holds the delta
/// in its first row, and same in the others. Memory that is not of a queue's length is refused with
/// 1, and nothing touched.
pub fn put_alone<R: Value>(
    changes: &mut [Change<R>],
    tap: Tap,
    delta: &[Change<R>],
) -> Result<(), Refusal>
    ensures answer { result ≡ (if length changes.old == queue_limit
        then put_answer queue nothing_waits tap.number (map (change_of R.kind) delta.now)
        else Err memory_refusal) }
    ensures changes { changes.new ≡ (if length changes.old == queue_limit
        then map (change_record R.kind) (queue_rows (listed
        (after_put queue nothing_waits tap.number (map (change_of R.kind) delta.now))))
        else changes.old) }
{
    if changes.len() != QUEUE_LIMIT {
        return Err(Refusal::MEMORY);
    }
    Queue::over(changes).put(tap, delta)
}
