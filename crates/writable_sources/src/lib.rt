//! What an endpoint file can spell within its limits: the codes of processes in a choreography, the
//! names and expressions of a source, and the endpoint programs that are the projection of its text.
#![tactic(auto)]

ghost use Rattle.writable_sources.specs.Laws.{LeastIsWritable, CodesAreWritable, ServicesAreWritable, SourcesAreWritable, ProjectionOfTextIsWritable, ProjectionIsWritable};

/// The least code above some that can be spelled, with at most so many nodes on a path, can be
/// spelled with no more.
pub fn least_is_writable()
    ensures { LeastIsWritable }
{}

/// The code of a process in a choreography that can be spelled can be spelled, with no more nodes on
/// a path than the choreography has.
pub fn codes_are_writable()
    ensures { CodesAreWritable }
{}

/// So can the code of a service role, where what follows each start can be spelled, and the
/// channel's name.
pub fn services_are_writable()
    ensures { ServicesAreWritable }
{}

/// A source that the tokens of some bytes derive, within the limits, can be spelled with the tables
/// that they fill: each of its names is a name there and each expression is one of a source, of at
/// most 255 tokens as it is printed; and it keeps the limits that endpoint files have.
pub fn sources_are_writable()
    ensures { SourcesAreWritable }
{}

/// The endpoint programs that are the projection of a source can be written as an endpoint file:
/// the tables hold each word and text once, each name and expression can be spelled, and the limits
/// of endpoint files are kept. For this the text has to be a source within its own limits; it may
/// violate rules of other classes, as long as it has a projection.
pub fn projection_is_writable()
    ensures text { ProjectionOfTextIsWritable }
    ensures accepted { ProjectionIsWritable }
{}
