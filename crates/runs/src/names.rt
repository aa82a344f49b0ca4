// What names stand for.
ghost use Rattle.std.specs.Prelude.{◌≡◌, ◌<◌, vec_len, vec_capacity, IfErr, OnOk};
ghost use Rattle.runs.specs.State.{renamed};
ghost use Rattle.runs.specs.Tokens.{is_named};
ghost use Rattle.runs.specs.declared.stop.Stop.TheVariants.{Memory};

use crate::call::Name;
use crate::stop::Stop;

// Makes room for one name more.
pub(crate) fn reserve<A>(names: &mut Vec<A>) -> Result<(), Stop>
    ensures same { names.new.items ≡ names.old.items }
    ensures room { OnOk result (vec_len names.new < vec_capacity names.new) }
    ensures memory { IfErr result (λ e. e ≡ Memory) }
{
    Ok(names.reserve(1)?)
}

// Whether a name stands for something.
pub(crate) fn is_named<A: Copy>(names: &Vec<Option<A>>, name: Name) -> bool
    ensures { result ≡ is_named names.now.items name }
{
    match name {
        Name::Made(i) => names.get(i).copied().flatten().is_some(),
        Name::Foreign => true,
    }
}

// A name stands for something else, or for nothing, from now on.
pub(crate) fn rename<A: Copy>(names: &mut Vec<Option<A>>, name: Name, to: Option<A>)
    ensures names { names.new.items ≡ renamed names.old.items name to }
    ensures room { vec_capacity names.new ≡ vec_capacity names.old }
{
    if let Name::Made(i) = name
        && i < names.len()
    {
        names[i] = to;
    }
}
