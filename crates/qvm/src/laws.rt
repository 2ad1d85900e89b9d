//! Laws of the definitions: functions that do nothing but call other laws, each with its statement as its contract.

ghost use Rattle.std.specs.Prelude.{◌≡◌, ℕ, List};
ghost use Rattle.qvm.specs.RunText.{Reply, IsReplyTo};

use quil_link::one_program;
use quil_round_trip::tree_or_fault;

/// With each limit and seed, each text has a reply, and no other.
pub fn one_reply()
    ensures some { (limit : ℕ) (seed text : List ℕ) → ((r : Reply) × IsReplyTo limit seed text r) }
    ensures only { (limit : ℕ) (seed text : List ℕ) (r s : Reply) → IsReplyTo limit seed text r → IsReplyTo limit seed text s → r ≡ s }
{
    tree_or_fault();
    one_program();
}
