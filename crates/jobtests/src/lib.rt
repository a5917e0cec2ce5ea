// Tests of the reader: tables of files with what each is answered, and what the worked job says.
#![tactic(auto)]

#[cfg(test)]
mod built;
#[cfg(test)]
mod cases;
#[cfg(test)]
mod patched;

#[cfg(test)]
mod tests {
    use crate::cases::{BUILT, PATCHED, WORKED};
    use faults::{Fault, Layer};
    use job::Job;
    use sets::SheetSet;
    use std::test::Fail;

    // The layer, the number and the place with which the reader refuses a file, if it does.
    fn found(file: Vec<u8>) -> Option<(Layer, u8, usize)> {
        let fault = Job::read(file).err()?;
        Some((fault.layer(), fault.number(), fault.place()))
    }

    #[test]
    fn patched_files(rt: HostRuntime) -> Result<(), Fail> {
        for case in &PATCHED {
            let file = case.file(rt.alloc())?;
            assert_eq!(rt; found(file), case.refusal, "{}", case.about);
        }
        Ok(())
    }

    #[test]
    fn built_files(rt: HostRuntime) -> Result<(), Fail> {
        for case in &BUILT {
            let file = case.file(rt.alloc())?;
            assert_eq!(rt;
                found(file),
                case.refusal,
                "{} sheets, {} orders, labels of {} bytes",
                case.sheets,
                case.orders,
                case.label_bytes
            );
        }
        Ok(())
    }

    #[test]
    fn worked_job(rt: HostRuntime) -> Result<(), Fail> {
        let Ok(job) = Job::read(WORKED.to_vec(rt.alloc())?) else {
            return Err(Fail::new("the worked job is refused"));
        };
        assert!(rt; job.sheets() == 3 && job.orders() == 3);
        assert!(rt; job.row(1).has(1) && job.row(1).has(2) && !job.row(1).has(0));
        assert!(rt; job.row(3).is_empty());
        assert!(rt; job.due(0) == Some(2) && job.due(1) == None && job.due(2) == Some(3));
        assert!(rt; job.due(3) == None);
        assert!(rt; job.label(0) == b"K7".as_slice() && job.label(2) == b"R9".as_slice());
        assert!(rt; job.label(3).is_empty());
        let reach = job.rows().reach(SheetSet { bits: 5 });
        assert!(rt; reach.has(0) && reach.has(1) && !reach.has(2));
        Ok(())
    }
}
