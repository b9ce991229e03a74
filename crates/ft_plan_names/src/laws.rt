// What numbers in place of names leave as it is, and which lines are counted: each law is the
// contract of a function that does nothing.
ghost use Rattle.ft_plan_names.specs.Laws.{CountLaw, LineLaw, PlaceLaw, PlanLaw, TextLaw};

/// A line that gives no name and has none stays, byte for byte.
pub fn plain_lines_stay()
    ensures { LineLaw }
{}

/// A text of such lines stays, byte for byte.
pub fn plain_texts_stay()
    ensures { TextLaw }
{}

/// A plan without names stays, byte for byte.
pub fn plans_stay()
    ensures { PlanLaw }
{}

/// Each line keeps its place, so the number of a line is that of the line in the file.
pub fn lines_keep_places()
    ensures { PlaceLaw }
{}

/// Exactly the steps among the lines of a plan are counted, and the count begins with each job.
pub fn steps_are_counted()
    ensures { CountLaw }
{}
