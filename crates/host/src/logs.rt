// The log: lines in order of execution, and then by rising object.
ghost use Rattle.std.specs.Prelude.{◌≡◌, ◌≤◌, ◌+◌, ◌++◌, [], length};
ghost use Rattle.text.specs.Formats.{most_entries, most_objects};
ghost use Rattle.model.specs.Batch.{log_of};
ghost use Rattle.model.specs.Host.{logs_from};
ghost use Rattle.host.specs.Steps.{lines_of};

use text::{Entry, Log, OBJECTS};

// The lines of one object join those that were sorted.
fn push_object(log: &[Entry], object: u64, sorted: &mut Log)
    requires { length sorted.old.items + length (log_of object log.now) ≤ most_entries }
    ensures { sorted.new.items ≡ sorted.old.items ++ log_of object log.now }
{
    for l in log {
        if l.op.object == object {
            sorted.push(*l);
        }
    }
}

// The lines by rising object, within one in order of execution, into an empty log.
pub(crate) fn by_object(log: &[Entry], sorted: &mut Log)
    requires few { length log.now ≤ most_entries }
    requires empty { sorted.old.items ≡ [] }
    ensures { sorted.new.items ≡ logs_from (lines_of log.now) 0 most_objects }
{
    for object in 0..OBJECTS {
        push_object(log, object, sorted);
    }
}
