//! The text of endpoint programs: its units; that no rule refuses it where the programs have no fault;
//! and that what is read from it are the same programs.

ghost use Rattle.endpoint_laws.specs.PrintedLaws.{SymbolsAreUnits, TextHasUnits, UnitsSayThem, TokensAreTaken};
ghost use Rattle.endpoint_laws.specs.Taken.{UnitsAreFaultless, TextIsTaken};
ghost use Rattle.endpoint_laws.specs.ReadBack.{ReadBackAreSame, ReadBackAreCopies};

/// The text of endpoint programs is an endpoint file, within all limits: its tokens are one of units
/// that say the programs name by name, with the arms of each branch in ascending order of their
/// labels, and of no other units. So the rules of the grammar and its limits never refuse it.
///
/// The programs are those that an endpoint file can be of: each name and expression can be spelled,
/// and the limits of files are kept.
pub fn text_has_units()
    ensures symbols { SymbolsAreUnits }
    ensures some { TextHasUnits }
    ensures all { UnitsSayThem }
    ensures taken { TokensAreTaken }
{}

/// The text of endpoint programs without a fault has none, where host functions have the names that
/// the programs ask for: none of the rules of endpoint files refuses it.
pub fn text_is_taken()
    ensures units { UnitsAreFaultless }
    ensures taken { TextIsTaken }
{}

/// What is read from the text of endpoint programs are the same programs: names and texts may have
/// other numbers, and the arms of each branch stand in ascending order of their labels.
pub fn text_reads_back()
    ensures same { ReadBackAreSame }
    ensures copies { ReadBackAreCopies }
{}
