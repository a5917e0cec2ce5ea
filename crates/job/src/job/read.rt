// From bytes to a job, or to the fault of the first check that fails.
ghost use Rattle.faults.specs.declared.job.JobFault.{JobFault};
ghost use Rattle.jobfile.specs.Check.{FirstFault};
ghost use Rattle.job.specs.Jobs.{file_of, outcome};
ghost use Rattle.jobfile.specs.Checks.{checks};
ghost use Rattle.job.specs.Reading.{reading};
ghost use Rattle.job.specs.WellFormed.{WellFormed};
ghost use Rattle.std.specs.Prelude.{◌≡◌, is_ok, IfOk, IfErr, Decides};

use super::Job;
use faults::JobFault;
use jobfile::JobFile;

impl Job {
    // Takes the file; a refused file is dropped.
    pub fn read(file: Vec<u8>) -> Result<Job, JobFault>
        ensures value { outcome result ≡ reading file.items }
        ensures file { IfOk result (λ job. file_of job ≡ file.items) }
        ensures accepts { Decides (is_ok result) (WellFormed file.items) }
        ensures refuses { IfErr result (λ fault. FirstFault (checks file.items) fault) }
    {
        JobFile::new(&file).check()?;
        Ok(Job { file })
    }
}
