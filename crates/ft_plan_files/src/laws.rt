// What stays as it is when a plan is written out, what its steps say, from which lines they come,
// and what stands at the places: each law is the contract of a function that does nothing.
ghost use Rattle.ft_plan_files.specs.Laws.{GetLaw, LinesLaw, PathLaw, PlaceLaw, PlanLaw, PutLaw, SourceLaw, TextLaw};

/// A text whose lines carry no file stays, byte for byte.
pub fn texts_without_files_stay()
    ensures { TextLaw }
{}

/// A plan that is one as it is stays, byte for byte.
pub fn plans_stay()
    ensures { PlanLaw }
{}

/// The steps of a `put` are read as the calls that give a file these bytes.
pub fn put_steps_are_calls()
    ensures { PutLaw }
{}

/// The steps of a `get` are read as the calls that read a file.
pub fn get_steps_are_calls()
    ensures { GetLaw }
{}

/// The path of a line that carries a file is of bytes, none of them null.
pub fn paths_are_of_bytes()
    ensures { PathLaw }
{}

/// The texts for the lines of a plan's file follow each other in the plan that is written out.
pub fn texts_keep_their_order()
    ensures { LinesLaw }
{}

/// Each line of that plan comes from the line of the file whose number `line_of_file` returns.
pub fn lines_have_sources()
    ensures { SourceLaw }
{}

/// Each place is that of the read of its `get`, if what is written out is a plan.
pub fn places_are_reads()
    ensures { PlaceLaw }
{}
