//! The sorts of the variables that are set, of each process.

ghost use Rattle.std.specs.Prelude.{◌≡◌, IfOk, OnOk, map};
ghost use Rattle.chor_base.specs.Expr.{term_of};
ghost use Rattle.chor_base.specs.Sorts.{sort_of};
ghost use Rattle.typing_rules.specs.Environment.{set_at, unset, declared_sort, declared_sorts};
ghost use Rattle.typing_rules.specs.Checks.{are_set};
ghost use Rattle.typing_steps.specs.Sorts.{sorts_in, sorts_of_map, with_sorts};

use chor_base::{Env, Expr, Memory, NameId, Rule, Sort};
use chor_tree::{Named, Part, ProcParam};
use std::alloc::Global;
use std::collections::HashMap;

// The variables of each process that are set.
pub struct SortMap {
    alloc: Global,
    processes: HashMap<NameId, Env>,
}

impl Drop for SortMap {
    fn drop(self) {
        let SortMap {
            alloc: _,
            processes: _,
        } = self;
    }
}

impl SortMap {
    // No variable is set. It takes no memory.
    pub fn new(alloc: Global) -> Self
        ensures { sorts_in result ≡ (λ p x. None) }
    {
        SortMap {
            alloc,
            processes: HashMap::new(alloc),
        }
    }

    // Each process parameter has its declared variables. Of several of one name the first counts.
    pub fn declared(alloc: Global, params: &[ProcParam]) -> Result<Self, Memory>
        ensures { IfOk result (λ sorts. sorts_in sorts ≡ declared_sorts params.now) }
    {
        let mut sorts = SortMap::new(alloc);
        let mut left = params.len();
        while left > 0 {
            left -= 1;
            let param = &params[left];
            let env = declared_env(alloc, param.vars.as_slice())?;
            sorts.put(param.name.name, env)?;
        }
        Ok(sorts)
    }

    // The same sorts once more.
    pub fn copy(&self, alloc: Global) -> Result<Self, Memory>
        ensures { IfOk result (λ sorts. sorts_in sorts ≡ sorts_in self.now) }
    {
        let mut sorts = SortMap::new(alloc);
        for (process, env) in self.processes.iter() {
            sorts.put(*process, env.copy(alloc)?)?;
        }
        Ok(sorts)
    }

    // The sort of a variable of a process, if it is set.
    pub fn sort_in(&self, process: NameId, var: NameId) -> Option<Sort>
        ensures { result ≡ sorts_in self.now process var }
    {
        match self.processes.get(&process) {
            Some(env) => env.get(var),
            None => None,
        }
    }

    // The sort of an expression of a process, or the rule that it violates.
    pub fn sort_of(&self, process: NameId, expr: &Expr) -> Result<Sort, Rule>
        ensures { result ≡ sort_of (term_of expr.now) (sorts_in self.now process) }
    {
        match self.processes.get(&process) {
            Some(env) => chor_base::sort_of(expr, env),
            None => chor_base::sort_of(expr, &Env::new(self.alloc)),
        }
    }

    // Whether a process has these variables set with these sorts.
    pub fn are_set(&self, process: NameId, vars: &[(Named, Sort)]) -> bool
        ensures { result ≡ are_set vars.now (sorts_in self.now process) }
    {
        for (var, sort) in vars {
            let is_set = match self.sort_in(process, var.name) {
                Some(known) => sort.is_same(known),
                None => false,
            };
            if !is_set {
                return false;
            }
        }
        true
    }

    // The variable of the process has that sort.
    pub fn set(&mut self, process: NameId, var: NameId, sort: Sort) -> Result<(), Memory>
        ensures { OnOk result (sorts_in self.new ≡ set_at (sorts_in self.old) process var sort) }
    {
        let known = self.processes.insert(process, Env::new(self.alloc))?;
        let mut env = match known {
            Some(env) => env,
            None => Env::new(self.alloc),
        };
        env.reserve()?;
        env.set(var, sort);
        self.put(process, env)
    }

    // The process has these variables, and no others.
    fn put(&mut self, process: NameId, env: Env) -> Result<(), Memory>
        ensures { OnOk result (sorts_in self.new ≡ with_sorts (sorts_in self.old) process (sorts_of_map env.map)) }
    {
        self.processes.insert(process, env)?;
        Ok(())
    }

    // New processes have no variable set.
    pub fn clear(&mut self, parts: &[Part]) -> Result<(), Memory>
        ensures { OnOk result (sorts_in self.new ≡ unset (sorts_in self.old) (map (λ q. q.process.name) parts.now)) }
    {
        for part in parts {
            self.put(part.process.name, Env::new(self.alloc))?;
        }
        Ok(())
    }
}

// Variables with their declared sorts. Of several of one name the first counts.
fn declared_env(alloc: Global, vars: &[(Named, Sort)]) -> Result<Env, Memory>
    ensures { IfOk result (λ env. sorts_of_map env.map ≡ declared_sort vars.now) }
{
    let mut env = Env::new(alloc);
    let mut left = vars.len();
    while left > 0 {
        left -= 1;
        let (var, sort) = vars[left];
        env.reserve()?;
        env.set(var.name, sort);
    }
    Ok(env)
}
