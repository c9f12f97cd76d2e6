// One record of each kind into lent bytes, each answering the place behind it; numbers have the least byte first.
ghost use Rattle.std.specs.Prelude.{[], ◌∷◌, ◌+◌, ◌≤◌, length};
ghost use Rattle.sets.specs.Bytes.{Put};
ghost use Rattle.reader.specs.Numbers.{numbers_bytes};
ghost use Rattle.reader.specs.Framing.{record_bytes};
ghost use Rattle.reader.specs.Bodies.{record_of};
ghost use Rattle.judging.specs.declared.Body.TheVariants.{Step, Action, Transition, Block, Case, Edition};

fn put(bytes: &mut [u8], at: usize, part: &[u8]) -> usize
    requires { at + length part.now ≤ length bytes.old }
    ensures { Put bytes.old at part.now bytes.new result }
{
    let end = at + part.len();
    bytes[at..end].copy_from_slice(part);
    end
}

// The kind is put as the number that the file has.
fn put_head(bytes: &mut [u8], at: usize, size: u16, kind: u16) -> usize
    requires { at + 4 ≤ length bytes.old }
    ensures { Put bytes.old at (numbers_bytes (2 ∷ 2 ∷ []) (size ∷ kind ∷ [])) bytes.new result }
{
    let next = put(bytes, at, &size.to_le_bytes());
    put(bytes, next, &kind.to_le_bytes())
}

pub(crate) fn put_step(bytes: &mut [u8], at: usize, initial: u8) -> usize
    requires { at + 5 ≤ length bytes.old }
    ensures { Put bytes.old at (record_of (Step initial)) bytes.new result }
{
    let body = put_head(bytes, at, 1, 1);
    put(bytes, body, &[initial])
}

pub(crate) fn put_action(bytes: &mut [u8], at: usize, action: fields::Action) -> usize
    requires { at + 9 ≤ length bytes.old }
    ensures { Put bytes.old at (record_of (Action action.output action.value)) bytes.new result }
{
    let body = put_head(bytes, at, 5, 2);
    let next = put(bytes, body, &[action.output]);
    put(bytes, next, &action.value.cast_unsigned().to_le_bytes())
}

pub(crate) fn put_transition(bytes: &mut [u8], at: usize, transition: fields::Transition) -> usize
    requires { at + 40 ≤ length bytes.old }
    ensures { Put bytes.old at (record_of (Transition transition.sources transition.targets transition.on transition.off transition.wait)) bytes.new result }
{
    let body = put_head(bytes, at, 36, 3);
    let second = put(bytes, body, &transition.sources.to_le_bytes());
    let third = put(bytes, second, &transition.targets.to_le_bytes());
    let fourth = put(bytes, third, &transition.on.to_le_bytes());
    let last = put(bytes, fourth, &transition.off.to_le_bytes());
    put(bytes, last, &transition.wait.to_le_bytes())
}

pub(crate) fn put_block(bytes: &mut [u8], at: usize, block: fields::Block) -> usize
    requires { at + 11 ≤ length bytes.old }
    ensures { Put bytes.old at (record_of (Block block.step block.action block.qualifier block.duration)) bytes.new result }
{
    let body = put_head(bytes, at, 7, 4);
    let last = put(bytes, body, &[block.step, block.action, block.qualifier]);
    put(bytes, last, &block.duration.to_le_bytes())
}

pub(crate) fn put_case(bytes: &mut [u8], at: usize, case: fields::Case) -> usize
    requires { at + 7 ≤ length bytes.old }
    ensures { Put bytes.old at (record_of (Case case.step case.signal case.expected)) bytes.new result }
{
    let body = put_head(bytes, at, 3, 5);
    put(bytes, body, &[case.step, case.signal, case.expected])
}

pub(crate) fn put_edition(bytes: &mut [u8], at: usize) -> usize
    requires { at + 5 ≤ length bytes.old }
    ensures { Put bytes.old at (record_of (Edition 2)) bytes.new result }
{
    let body = put_head(bytes, at, 1, 6);
    put(bytes, body, &[2])
}

pub(crate) fn put_end(bytes: &mut [u8], at: usize) -> usize
    requires { at + 4 ≤ length bytes.old }
    ensures { Put bytes.old at (record_bytes 0 []) bytes.new result }
{
    put_head(bytes, at, 0, 0)
}
