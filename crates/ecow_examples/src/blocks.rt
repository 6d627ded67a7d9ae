//! Commands on lists in shared blocks: what they answer, what they leave, and what they cost.
ghost use Rattle.std.specs.Prelude.{◌≡◌, ℕ, true, false, [], ◌∷◌};
ghost use Rattle.ecow_model.specs.CountedRun.{CountedStep, counted_is_free};
ghost use Rattle.ecow_model.specs.Vecs.{vec_usage};
ghost use Rattle.ecow_model.specs.Names.{Names};
ghost use Rattle.ecow_model.specs.declared.command.Outcome.TheVariants.{Refused};
ghost use Rattle.ecow_model.specs.declared.command.Refusal.TheVariants.{Memory};
ghost use Rattle.ecow_model.specs.declared.vecs.VecCommand.TheVariants.{Clear, Extend, Pop, Push, Reserve, Retain, Truncate, Write};
ghost use Rattle.ecow_examples.specs.Memory.{four_of_four, shared_block, three_of_four};
ghost use Rattle.ecow_examples.specs.BlockScripts.{ThreeNamesEndInThreeBlocks, BlocksGoWithTheirLastName, AnEmptyBlockIsShared, EachWrittenCloneIsCopiedOnce, UnwrittenClonesAreOwed, DroppedClonesCostNothing, PushesAfterAPopArePaid};

/// Names share a block until one of them is written to.
pub fn sharing()
    ensures three_names_end_in_three_blocks { ThreeNamesEndInThreeBlocks }
    ensures an_empty_block_is_shared { AnEmptyBlockIsShared }
    ensures blocks_go_with_their_last_name { BlocksGoWithTheirLastName }
{}

/// How many elements are copied, how many copies at each clone would be, and what is still owed.
pub fn what_is_owed()
    ensures each_written_clone_is_copied_once { EachWrittenCloneIsCopiedOnce }
    ensures unwritten_clones_are_owed { UnwrittenClonesAreOwed }
    ensures dropped_clones_cost_nothing { DroppedClonesCostNothing }
    ensures pushes_after_a_pop_are_paid { PushesAfterAPopArePaid }
{}

/// A command that must grow a block or copy may be refused for memory, and then changes nothing.
pub fn wanting_memory()
    ensures a_push_into_a_full_block_may_lack_memory { CountedStep four_of_four (Push 0 5)
        (Refused Memory) four_of_four }
    ensures it_then_changes_nothing { (new : Names ℕ)
        → CountedStep four_of_four (Push 0 5) (Refused Memory) new → new ≡ four_of_four }
    ensures an_extend_past_the_capacity_may_lack_memory { CountedStep three_of_four
        (Extend 0 (4 ∷ 5 ∷ 6 ∷ [])) (Refused Memory) three_of_four }
    ensures a_truncate_by_a_shared_name_may_lack_memory { CountedStep shared_block (Truncate 1 2)
        (Refused Memory) shared_block }
    ensures a_push_by_a_shared_name_may_lack_memory { CountedStep shared_block (Push 1 4)
        (Refused Memory) shared_block }
{}

/// A command that has the capacity is never refused for memory.
pub fn free_of_memory()
    ensures a_push_within_the_capacity { (new : Names ℕ)
        → ¬ (CountedStep three_of_four (Push 0 4) (Refused Memory) new) }
    ensures a_clear_of_a_shared_name { (new : Names ℕ)
        → ¬ (CountedStep shared_block (Clear 0) (Refused Memory) new) }
    ensures a_reserve_within_the_capacity { counted_is_free three_of_four (vec_usage (Reserve 0 1))
        ≡ true }
    ensures a_write_by_a_sole_name { counted_is_free three_of_four (vec_usage (Write 0 1 9))
        ≡ true }
    ensures a_retain_by_a_sole_name { counted_is_free three_of_four
        (vec_usage (Retain 0 (true ∷ false ∷ true ∷ []))) ≡ true }
    ensures a_pop_by_a_sole_name { counted_is_free three_of_four (vec_usage (Pop 0)) ≡ true }
    ensures no_pop_by_a_shared_name { counted_is_free shared_block (vec_usage (Pop 0)) ≡ false }
{}
