//! Tables of code.

ghost use Rattle.std.specs.Prelude.{◌≡◌, true, All, IfOk, length, map};
ghost use Rattle.endpoint_code.specs.Kept.{has_name, has_text, node_there};
ghost use Rattle.endpoint_code.specs.Trees.{trees_of};
ghost use Rattle.endpoint_names.specs.Bodies.{bodies_of};
ghost use Rattle.endpoint_making.specs.Codes.{code_of, line_there};

use crate::nodes::node_of;
use chor_base::{Memory, Names, Texts};
use endpoint_code::Code;
use endpoint_reader::Lines;
use std::alloc::Global;

// A node for each line, at the same number.
pub fn table_of(alloc: Global, lines: &Lines, names: &Names, texts: &Texts) -> Result<Code, Memory>
    requires { All (λ l. line_there (has_name names.now) (has_text texts.now) l ≡ true) lines.now.items }
    ensures trees { IfOk result (λ code. trees_of code.nodes ≡ map code_of (bodies_of lines.now.items)) }
    ensures count { IfOk result (λ code. length code.nodes ≡ length lines.now.items) }
    ensures there { IfOk result (λ code. All (λ o. node_there (has_name names.now) (has_text texts.now) o ≡ true) code.nodes) }
{
    let mut code = Code::new(alloc);
    for line in lines.items.as_slice() {
        let node = node_of(alloc, line)?;
        code.push(node)?;
    }
    Ok(code)
}
