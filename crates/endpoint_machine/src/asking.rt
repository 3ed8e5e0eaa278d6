//! What a process is answered that asks a host function, and what it may be answered.

ghost use Rattle.std.specs.Prelude.{◌≡◌, ◌<◌, ◌↔◌, Some, true, length, slice_get, IsTrue};
ghost use Rattle.chor_base.specs.Meaning.{meaning_named, MayAnswer};
ghost use Rattle.chor_base.specs.Words.{AllDistinct};
ghost use Rattle.chor_base.specs.Writing.{name_in};
ghost use Rattle.chor_host.specs.Functions.{hosts_in, is_named, names_of};
ghost use Rattle.chor_host.specs.Tables.{functions_of};
ghost use Rattle.endpoint_code.specs.Faults.{asks_known, is_listed};
ghost use Rattle.endpoint_code.specs.Kept.{has_name, has_text, node_there};
ghost use Rattle.endpoint_machine.specs.Acts.{NodeAnswers};

use crate::locals::number_of;
use crate::machine::Machine;
use chor_base::{NameId, Names, eval};
use chor_host::HostTable;
use endpoint_code::{CodeNode, Endpoints};

// The bytes of a name, which no other name has.
fn word_of(names: &Names, name: NameId) -> &[u8]
    requires { name.0 < length names.now }
    ensures word { slice_get names.now name.0 ≡ Some result.now }
    ensures distinct { AllDistinct names.now }
{
    if (name.0 as usize) < names.len() {
        names.at(name)
    } else {
        unreachable!()
    }
}

// What the host function of a name answers to two numbers.
fn answer_of(names: &Names, hosts: &HostTable, name: NameId, left: i64, right: i64) -> i64
    requires there { name.0 < length names.now }
    requires known { is_named (functions_of hosts.now) (name_in names.now name) ≡ true }
    ensures answers { MayAnswer (meaning_named (hosts_in names.now (functions_of hosts.now)) name) left right result }
{
    let word = word_of(names, name);
    let Some(answer) = hosts.ask(word, left, right) else {
        unreachable!()
    };
    answer
}

// Whether the host function of a name may answer this value to two numbers.
fn may_answer(
    names: &Names,
    hosts: &HostTable,
    name: NameId,
    numbers: (i64, i64),
    value: i64,
) -> bool
    requires there { name.0 < length names.now }
    ensures { IsTrue result ↔ MayAnswer (meaning_named (hosts_in names.now (functions_of hosts.now)) name) numbers.0 numbers.1 value }
{
    let word = word_of(names, name);
    hosts.allows(word, numbers.0, numbers.1, value)
}

impl Machine {
    /// What the host function answers that the process asks at a node; 0 where it asks none.
    pub(crate) fn answer_at(&self, node: &CodeNode, endpoints: &Endpoints, hosts: &HostTable) -> i64
        requires there { node_there (has_name endpoints.now.names) (has_text endpoints.now.texts) node.now ≡ true }
        requires known { asks_known (is_listed (names_of (functions_of hosts.now)) endpoints.now) node.now ≡ true }
        ensures answers { NodeAnswers (hosts_in endpoints.now.names (functions_of hosts.now)) self.now.machine.vars node.now result }
    {
        match node {
            CodeNode::Host(_, name, left, right, _) => {
                let left = number_of(eval(left, &self.vars));
                let right = number_of(eval(right, &self.vars));
                answer_of(&endpoints.names, hosts, *name, left, right)
            }
            _ => 0,
        }
    }

    /// Whether the host function that the process asks at a node may answer this. Where it asks none,
    /// any number will do.
    pub(crate) fn allows_at(
        &self,
        node: &CodeNode,
        endpoints: &Endpoints,
        hosts: &HostTable,
        answer: i64,
    ) -> bool
        requires { node_there (has_name endpoints.now.names) (has_text endpoints.now.texts) node.now ≡ true }
        ensures { IsTrue result ↔ NodeAnswers (hosts_in endpoints.now.names (functions_of hosts.now)) self.now.machine.vars node.now answer }
    {
        match node {
            CodeNode::Host(_, name, left, right, _) => {
                let left = number_of(eval(left, &self.vars));
                let right = number_of(eval(right, &self.vars));
                may_answer(&endpoints.names, hosts, *name, (left, right), answer)
            }
            _ => true,
        }
    }
}
