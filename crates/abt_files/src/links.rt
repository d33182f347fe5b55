//! Where names lead.
use crate::names::cut_name;
use crate::why::Why;
use std::alloc::AllocGlobal;
use std::os::unix::fs::MetadataExt;
use std::rt::Files;

// The most links that are followed one behind the other, as the system follows them.
const LINKS_MAX: u32 = 40;

// Where a name leads.
pub(crate) enum Target {
    // To what has this name, or will have it.
    Named(String),
    // To a file that a process holds open, which need not have a name.
    Held,
}

// One step along links.
enum Step {
    To(String),
    End,
    Held,
}

// Where a name leads through all links.
pub(crate) fn target_of<T: Files + AllocGlobal>(rt: &T, name: &str) -> Result<Target, Why> {
    let mut name = String::from_str(rt.alloc(), name)?;
    for _ in 0..LINKS_MAX {
        match step_from(rt, name.as_str())? {
            Step::To(next) => name = next,
            Step::End => return Ok(Target::Named(name)),
            Step::Held => return Ok(Target::Held),
        }
    }
    Err(Why::Circle)
}

fn step_from<T: Files + AllocGlobal>(rt: &T, name: &str) -> Result<Step, Why> {
    let Ok(about) = rt.symlink_metadata(name) else {
        return Ok(Step::End);
    };
    if !about.is_symlink() {
        return Ok(Step::End);
    }
    if is_of_processes(rt, about.dev()) {
        return Ok(Step::Held);
    }
    let link = rt.read_link(rt.alloc(), name)?;
    let link = link.as_str();
    let next = match link.starts_with('/') {
        true => String::from_str(rt.alloc(), link)?,
        false => {
            let (folder, _) = cut_name(name);
            format!(in rt.alloc(); "{folder}{link}")?
        }
    };
    Ok(Step::To(next))
}

// Whether a device is that of the files under which the system shows processes.
fn is_of_processes<T: Files>(rt: &T, device: u64) -> bool {
    match rt.symlink_metadata("/proc/self") {
        Ok(about) => about.dev() == device,
        Err(_) => false,
    }
}
