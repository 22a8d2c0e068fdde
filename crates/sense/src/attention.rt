// Attention that a command meets at step 2.
ghost use Rattle.std.specs.Prelude.{◌≡◌, ◌≤◌, List, ℕ, length};
ghost use Rattle.rules.specs.Tables.{head_size, hosts, attention, lent, Rest};
ghost use Rattle.rules.specs.Order.{Verdict, outcome, after_attention};
ghost use Rattle.order.specs.Ending.{ended};

use order::{Reply, Status};

// "6 with its codes, attention cleared", whatever would come after.
pub fn report(head: &mut [u8], host: u8) -> Reply
    requires head_long { head_size ≤ length head.old }
    requires host_known { host ≤ hosts }
    requires attentive { attention head.old host ≡ 0 → ⊥ }
    ensures { (elements : List ℕ) (rest : Rest) (buffer : List ℕ) (later : Verdict) → ended result (lent head.new elements rest) buffer ≡ outcome (lent head.old elements rest) buffer (after_attention (lent head.old elements rest) host later) }
{
    let codes = crate::attention_of(head, host);
    tables::head::note(head, host, codes.key, codes.asc, codes.ascq);
    tables::head::attend(head, host, 0, 0);
    order::told(Status::CheckCondition, 0)
}
