//! What holds of all endpoint programs that some bytes are the text of: they are printed, what is read
//! again are the same programs, and each has one text.
#![tactic(auto)]

ghost use Rattle.written_programs.specs.Laws.{ProgramsOfBytesAreWritable, PrintedAgainIsFine, PrintedAgainIsRead, ReadAgainAreSame, SameProgramsHaveOneText, PrintedAgainIsOneText, TextsTellPrograms};

/// An endpoint file can be of the endpoint programs that some bytes are the text of: each name and
/// expression can be spelled, and the limits of files are kept.
pub fn programs_of_bytes_are_writable()
    ensures { ProgramsOfBytesAreWritable }
{}

/// Their text is never refused. Where it is no longer than a file may be, it is the text of endpoint
/// programs.
pub fn printed_again_is_taken()
    ensures fine { PrintedAgainIsFine }
    ensures read { PrintedAgainIsRead }
{
    projected_programs::text_is_of_programs();
}

/// What is read from it are the same programs.
pub fn read_again_are_same()
    ensures { ReadAgainAreSame }
{
    endpoint_laws::text_reads_back();
}

/// Programs that are the same have the same text, whatever the numbers of their names and the order of
/// arms. So what is read from a text that was printed is printed as it stands.
pub fn printed_again_is_one_text()
    ensures same { SameProgramsHaveOneText }
    ensures again { PrintedAgainIsOneText }
{
    crate::read_again_are_same();
}

/// Programs that aren't the same have texts that differ.
pub fn texts_tell_programs()
    ensures { TextsTellPrograms }
{
    crate::printed_again_is_taken();
    crate::read_again_are_same();
}
