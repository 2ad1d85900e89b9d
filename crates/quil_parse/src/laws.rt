//! What holds of every text.

ghost use Rattle.std.specs.Prelude.{◌≡◌, ◌≢◌, ℕ, List};
ghost use Rattle.quil_tree.specs.declared.item.Item.{Item};
ghost use Rattle.quil_grammar.specs.declared.fault.ReadFault as fault;
ghost use Rattle.quil_grammar.specs.declared.fault.ReadFault.TheVariants.{OutOfMemory};
ghost use Rattle.quil_parse.specs.Program.{IsTreeOf, IsFaultOf};

/// A text is at most one tree, and has at most one fault beside want of memory, never both.
pub fn one_tree()
    ensures tree { (text : List ℕ) (t u : List Item) → IsTreeOf text t → IsTreeOf text u → t ≡ u }
    ensures fault { (text : List ℕ) (f g : fault.ReadFault) → f ≢ OutOfMemory → g ≢ OutOfMemory → IsFaultOf text f → IsFaultOf text g → f ≡ g }
    ensures not_both { (text : List ℕ) (t : List Item) (f : fault.ReadFault) → f ≢ OutOfMemory → IsTreeOf text t → ¬ (IsFaultOf text f) }
{}
