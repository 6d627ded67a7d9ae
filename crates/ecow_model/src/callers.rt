//! What a caller knows of one command.
ghost use Rattle.std.specs.FinMap.{get};
ghost use Rattle.std.specs.Result.{result_ok};
ghost use Rattle.ecow_model.specs.Callers.{ForksRead, WritesSet, OthersStay};
ghost use Rattle.ecow_model.specs.CountedRun.{CountedStep};
ghost use Rattle.ecow_model.specs.Names.{list_of};
ghost use Rattle.ecow_model.specs.Run.{IsVecStep};
ghost use Rattle.ecow_model.specs.Values.{vec_at};

/// In a command on named plain lists, a fork reads as its source does, a write sets one element,
/// and the values of all other names stay.
pub fn plain_steps<T>()
    ensures fork { ForksRead {T = T} IsVecStep get }
    ensures write { WritesSet {T = T} IsVecStep (λ values name. result_ok (vec_at values name)) }
    ensures others { OthersStay {T = T} IsVecStep get }
{}

/// In a command on named lists in shared blocks, a fork reads as its source does, a write sets one
/// element, and the values of all other names stay.
pub fn shared_steps<T>()
    ensures fork { ForksRead {T = T} CountedStep list_of }
    ensures write { WritesSet {T = T} CountedStep list_of }
    ensures others { OthersStay {T = T} CountedStep list_of }
{}
