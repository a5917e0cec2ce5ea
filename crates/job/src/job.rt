// A job: a job file that has passed every check.
ghost use Rattle.jobfile.specs.Checks.{accepts};
ghost use Rattle.std.specs.Prelude.{◌≡◌, true};

mod access;
mod read;

#[derive(Drop)]
pub struct Job {
    file: Vec<u8>,
    ghost accepted: { accepts file.items ≡ true },
}
