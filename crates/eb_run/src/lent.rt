// Files that are taken out of a world for a while, and put back.
ghost use Rattle.std.specs.Prelude.{◌≡◌, ◌<◌, ◌≤◌, ◌+◌, [], ◌∷◌, ◌++◌, length, vec_len, vec_capacity, IfOk, OnOk, OnErr};

use eb_base::NoMemory;
use eb_io::World;
use std::alloc::Global;

/// Takes all files out of a world that has some: the last one, which was opened last, and the others.
pub fn take_last<W: World>(alloc: Global, world: &mut W) -> (Vec<W::File>, W::File)
    requires some { 0 < length (W.outside world.old).files }
    ensures taken { (W.outside world.old).files ≡ result.0.items ++ result.1 ∷ [] }
    ensures left { W.outside world.new ≡ record (W.outside world.old) { files = [] } }
    ensures room { vec_len result.0 < vec_capacity result.0 }
{
    let mut others = world.files(alloc);
    match others.pop() {
        Some(last) => (others, last),
        None => unreachable!(),
    }
}

/// Puts them back, where the others have room for the last.
pub fn put_last<W: World>(world: &mut W, others: Vec<W::File>, last: W::File)
    requires none_left { (W.outside world.old).files ≡ [] }
    requires room { vec_len others < vec_capacity others }
    ensures put { W.outside world.new ≡ record (W.outside world.old) { files = others.items ++ last ∷ [] } }
{
    let mut files = others;
    match files.push(last) {
        Ok(()) => world.put_files(files),
        Err(_) => unreachable!(),
    }
}

/// Takes all files out of a world: the last ones, so many of them, and the others. Where memory is refused, all is as
/// before.
pub fn take_last_files<W: World>(
    alloc: Global,
    count: usize,
    world: &mut W,
) -> Result<(Vec<W::File>, Vec<W::File>), NoMemory>
    requires some { count ≤ length (W.outside world.old).files }
    ensures taken { IfOk result (λ x. (W.outside world.old).files ≡ x.0.items ++ x.1.items) }
    ensures count { IfOk result (λ x. length x.1.items ≡ count) }
    ensures room { IfOk result (λ x. vec_len x.0 + count ≤ vec_capacity x.0) }
    ensures left { OnOk result (W.outside world.new ≡ record (W.outside world.old) { files = [] }) }
    ensures refused { OnErr result (W.outside world.new ≡ W.outside world.old) }
{
    let mut others = world.files(alloc);
    let at = others.len() - count;
    match others.split_off(at) {
        Ok(files) => Ok((others, files)),
        Err(_) => {
            world.put_files(others);
            Err(NoMemory)
        }
    }
}

/// Puts them back, where the others have room for the last ones.
pub fn put_last_files<W: World>(world: &mut W, others: Vec<W::File>, last: Vec<W::File>)
    requires none_left { (W.outside world.old).files ≡ [] }
    requires room { vec_len others + vec_len last ≤ vec_capacity others }
    ensures put { W.outside world.new ≡ record (W.outside world.old) { files = others.items ++ last.items } }
{
    let mut files = others;
    let mut last = last;
    match files.append(&mut last) {
        Ok(()) => world.put_files(files),
        Err(_) => unreachable!(),
    }
}
