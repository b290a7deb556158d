//! The definitions of programs and schedules, in the words of the subject. Each function does nothing; its
//! contract is the law.
ghost use Rattle.std.specs.Prelude.{◌≡◌, ◌↔◌, ℕ, true, List, Some, Ok, Err};
ghost use Rattle.jh_script.specs.declared.op.Op.{Op as TheOp};
ghost use Rattle.jh_script.specs.declared.line.Line.TheVariants as lines;
ghost use Rattle.jh_script.specs.declared.fault.ProgramFault.TheVariants as faults;
ghost use Rattle.jh_script.specs.declared.fault.ScheduleFault.TheVariants as refusals;
ghost use Rattle.jh_script.specs.Laws.{IsProgram, IsFirstBad, HasTooMany, HasOneMoreBlank, IsSchedule, IsFirstRefused, HasTooManyItems};
ghost use Rattle.jh_script.specs.Grammar.{IsNumber, IsSkipped, IsIllFormed, Writes};
ghost use Rattle.jh_script.specs.Numbers.{number_written};
ghost use Rattle.jh_script.specs.Operations.{IsWellFormed, is_ascii, line_of};
ghost use Rattle.jh_script.specs.Programs.{program_of};
ghost use Rattle.jh_script.specs.Schedules.{schedule_of};
ghost use Rattle.jh_script.specs.Words.{line_gaps, words};

/// A text is a program where none of its lines has a fault and the operations aren't too many; else the first
/// line with a fault decides, or the first operation that is one too many, whichever comes first.
pub fn first_fault_of_a_program_decides()
    ensures program { (text : List ℕ) (ops : List TheOp) → (program_of text ≡ Ok ops) ↔ IsProgram text ops }
    ensures syntax { (text : List ℕ) (line : ℕ) → (program_of text ≡ Err (faults.Syntax line)) ↔ IsFirstBad text lines.Syntax line }
    ensures width { (text : List ℕ) (line : ℕ) → (program_of text ≡ Err (faults.Width line)) ↔ IsFirstBad text lines.Width line }
    ensures too_long { (text : List ℕ) → (program_of text ≡ Err faults.TooLong) ↔ HasTooMany text }
{}

/// A text is a schedule where each of its items is a CPU of the board and they aren't too many; else the first
/// item that is none decides, or the first that is one too many, whichever comes first.
pub fn first_fault_of_a_schedule_decides()
    ensures schedule { (cpus : ℕ) (text items : List ℕ) → (schedule_of cpus text ≡ Ok items) ↔ IsSchedule cpus text items }
    ensures item { (cpus : ℕ) (text : List ℕ) (number : ℕ) → (schedule_of cpus text ≡ Err (refusals.Item number)) ↔ IsFirstRefused cpus text number }
    ensures too_long { (cpus : ℕ) (text : List ℕ) → (schedule_of cpus text ≡ Err refusals.TooLong) ↔ HasTooManyItems cpus text }
{}

/// A line is that of an operation exactly where its bytes are below 128, its words are the operation's and it is
/// within its limits; its fault is the width exactly where it isn't within them. It is skipped exactly where its
/// bytes are below 128 and it has no words or begins a comment. Any other line is a fault of syntax.
pub fn lines_are_words_of_operations()
    ensures operation { (text : List ℕ) (op : TheOp) → (line_of text ≡ lines.Operation op)
        ↔ ((is_ascii text ≡ true) × Writes (words line_gaps text) op × IsWellFormed op) }
    ensures width { (text : List ℕ) → (line_of text ≡ lines.Width) ↔ IsIllFormed text }
    ensures skipped { (text : List ℕ) → (line_of text ≡ lines.Blank)
        ↔ ((is_ascii text ≡ true) × IsSkipped (words line_gaps text)) }
{}

/// A word is a number exactly where it is the number in decimal and the number is below 2^64, or `0x` and 1 to 16
/// hexadecimal digits that write it.
pub fn numbers_are_decimal_or_hexadecimal()
    ensures { (word : List ℕ) (n : ℕ) → (number_written word ≡ Some n) ↔ IsNumber word n }
{}

/// Blank lines and comments change no operation: a text with one more of them is the same program.
pub fn blank_lines_change_nothing()
    ensures { (text other : List ℕ) (ops : List TheOp) → HasOneMoreBlank text other → (program_of text ≡ Ok ops) ↔ (program_of other ≡ Ok ops) }
{}
