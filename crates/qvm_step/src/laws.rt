//! Laws above the definitions of a step and a run, and examples that the check computes.

ghost use Rattle.std.specs.Prelude.{◌≡◌, ℕ, false, true, [], ◌∷◌, Some, None, pos};
ghost use Rattle.qvm_ring.specs.Ring.{unit};
ghost use Rattle.qvm_ring.specs.Examples.{bell_pair};
ghost use Rattle.quil_memory.specs.declared.cell_type.CellType.TheVariants.{Bit};
ghost use Rattle.quil_code.specs.declared.classic.Classic.TheVariants.{Move, Convert};
ghost use Rattle.quil_code.specs.declared.classic.Bitwise.TheVariants as bitwise;
ghost use Rattle.quil_code.specs.declared.classic.Source.TheVariants.{Literal};
ghost use Rattle.quil_code.specs.declared.instruction.Instruction.TheVariants.{Passive, Nop, Wait, Halt, X, H, Cnot, Measure, Reset, Classic};
ghost use Rattle.quil_code.specs.declared.quantum.Quantum.{Quantum};
ghost use Rattle.quil_code.specs.declared.fault.Fault.TheVariants.{AmplitudeLimit, Overflow};
ghost use Rattle.quil_code.specs.Program.{Program};
ghost use Rattle.quil_code.specs.Step.{step, here, needs_word, after_instruction, Goes, Waits, Halts, Faults};
ghost use Rattle.qvm_step.specs.Words.{zero_seed};
ghost use Rattle.qvm_step.specs.Run.{finished, Halted, Waiting, StepLimit, Fault};
ghost use Rattle.qvm_step.specs.Examples.{machine, no_bits, two_as_octet, heavy_ray, cell, passive_around, narrowing, waiting};

/// A step that needs no word doesn't depend on it.
#[tactic(auto, using(crate::proofs::Steps::step_without_word))]
pub fn word_matters_at_measurements_alone()
    ensures { (program : Program) (m : Quantum) (word other : ℕ) → needs_word program m ≡ false → step program m word ≡ step program m other }
{}

/// Steps worked by hand, on machines of two qubits. The instruction stands in line 7, and the next place is 4.
#[tactic(auto, unfolding(qvm_ring::specs::Ray::reduced, qvm_ring::specs::Gate::applied, qvm_ring::specs::Measure::projected))]
pub fn steps_by_hand()
    ensures x { after_instruction (X 1) 7 4 0 (machine ((0, unit) ∷ []) no_bits 3) ≡ Goes (machine ((2, unit) ∷ []) no_bits 4) }
    ensures cnot { after_instruction (Cnot 0 1) 7 4 0 (machine ((1, unit) ∷ []) no_bits 3) ≡ Goes (machine ((3, unit) ∷ []) no_bits 4) }
    // A word below 2^31 gives 1 on a Bell pair, and the other qubit is then 1 too.
    ensures measure_one { after_instruction (Measure 0 (Some (cell 1))) 7 4 2147483647 (machine bell_pair no_bits 3) ≡ Goes (machine ((3, unit) ∷ []) (false ∷ true ∷ []) 4) }
    ensures measure_zero { after_instruction (Measure 1 None) 7 4 2147483648 (machine bell_pair no_bits 3) ≡ Goes (machine ((0, unit) ∷ []) no_bits 4) }
    ensures reset { after_instruction (Reset None) 7 4 0 (machine bell_pair no_bits 3) ≡ Goes (machine ((0, unit) ∷ []) no_bits 4) }
    // The same words: the outcome of 1 is turned back to 0, and the other qubit stays 1.
    ensures reset_one { after_instruction (Reset (Some 0)) 7 4 2147483647 (machine bell_pair no_bits 3) ≡ Goes (machine ((2, unit) ∷ []) no_bits 4) }
    ensures reset_zero { after_instruction (Reset (Some 0)) 7 4 2147483648 (machine bell_pair no_bits 3) ≡ Goes (machine ((0, unit) ∷ []) no_bits 4) }
    ensures halt { after_instruction Halt 7 4 0 (machine bell_pair no_bits 3) ≡ Halts }
    ensures wait { after_instruction Wait 7 4 0 (machine bell_pair no_bits 3) ≡ Waits (machine bell_pair no_bits 4) }
    ensures nop { after_instruction Nop 7 4 0 (machine bell_pair no_bits 3) ≡ Goes (machine bell_pair no_bits 4) }
    ensures limit { after_instruction (H 0) 7 4 0 (machine heavy_ray no_bits 3) ≡ Faults (AmplitudeLimit 7) }
    ensures classic { after_instruction (Classic (Move Bit (cell 0) (Literal (pos 1)))) 7 4 0 (machine bell_pair no_bits 3) ≡ Goes (machine bell_pair (true ∷ false ∷ []) 4) }
    // An OCTET of 2 isn't a BIT.
    ensures overflow { after_instruction (Classic narrowing) 7 4 0 (machine bell_pair two_as_octet 3) ≡ Faults (Overflow 7) }
{}

/// Where steps are among passive lines: at 2 and at 4 of 6 lines.
#[tactic(auto, unfolding(quil_code::specs::Step::step))]
pub fn places_by_hand()
    ensures in_front { here passive_around.lines 0 ≡ 2 }
    ensures at_a_step { here passive_around.lines 2 ≡ 2 }
    ensures in_between { here passive_around.lines 3 ≡ 4 }
    ensures behind { here passive_around.lines 5 ≡ 6 }
    ensures at_the_end { here passive_around.lines 6 ≡ 6 }
    ensures step_from_the_front { step passive_around (machine bell_pair no_bits 1) 0 ≡ Goes (machine bell_pair no_bits 3) }
    ensures step_from_behind { step passive_around (machine bell_pair no_bits 5) 0 ≡ Halts }
{}

/// Runs worked by hand, with 3 words drawn before.
#[tactic(auto, unfolding(quil_code::specs::Step::step, quil_code::specs::Step::needs_word, crate::specs::Run::finished))]
pub fn runs_by_hand()
    ensures halted { finished 9 passive_around zero_seed (machine bell_pair no_bits 0) 3 ≡ record { machine = machine bell_pair no_bits 3; draws = 3; end = Halted } }
    ensures limit { finished 1 passive_around zero_seed (machine bell_pair no_bits 0) 3 ≡ record { machine = machine bell_pair no_bits 3; draws = 3; end = StepLimit } }
    ensures waiting { finished 2 waiting zero_seed (machine bell_pair no_bits 0) 3 ≡ record { machine = machine bell_pair no_bits 1; draws = 3; end = Waiting } }
    // A WAIT that is the last step left ends with the limit.
    ensures limit_at_wait { finished 1 waiting zero_seed (machine bell_pair no_bits 0) 3 ≡ record { machine = machine bell_pair no_bits 1; draws = 3; end = StepLimit } }
    ensures fault { finished 9 waiting zero_seed (machine bell_pair two_as_octet 1) 3 ≡ record { machine = machine bell_pair two_as_octet 1; draws = 3; end = Fault (Overflow 2) } }
{}
