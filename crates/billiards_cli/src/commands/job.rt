//! The command `job`: the generated job of a number.
ghost use Rattle.std.specs.Prelude.{◌≡◌, ◌⊎◌, ℕ, List, Option};
ghost use Rattle.mcb_ends.specs.Bytes.{Writes};
ghost use Rattle.mcb_ends.specs.Causes.{HasCause};
ghost use Rattle.covering_file.specs.Header.{job_text};
ghost use Rattle.billiards_cli.specs.Commands.Job.{job_request};
ghost use Rattle.billiards_cli.specs.Jobs.{job_heading};
ghost use Rattle.billiards_cli.specs.Requests.{command_of};
ghost use Rattle.billiards_cli.specs.Services.{Serves};

use crate::request::Request;
use crate::rest::Rest;
use crate::status::after_writing;
use crate::{JobNumber, Status};
use mcb_ends::{Decimal, Failed, Sink, put_all};

/// It takes the number of a job.
pub(crate) fn request<'a>(arguments: &Rest<'a>) -> Option<Request<'a>>
    ensures { result ≡ job_request arguments.now }
{
    if arguments.len() != 1 {
        return None;
    }
    let number = JobNumber::read(arguments.get(0))?;
    Some(Request::Job(number))
}

/// Writes a generated job. It reads nothing and takes no memory.
pub(crate) fn job<K: Sink>(number: &JobNumber, out: &mut K) -> Status
    ensures unwritten { (result ≡ Status.ReadFault) ⊎ (result ≡ Status.OutOfMemory) → out.new ≡ out.old }
    ensures room { K.room out.new ≡ K.room out.old }
    ensures serves { (left : Option (List ℕ)) (faults : ℕ) → Serves (command_of (Request.Job number.now))
        (record { left = left; source_faults = faults; written = K.written out.old; sink_faults = K.faults out.old })
        (record { left = left; source_faults = faults; written = K.written out.new; sink_faults = K.faults out.new })
        result }
{
    after_writing(Status::Done, write_job(number, out))
}

// The lines of a job with this triangle, the word 123123 and the depth 10.
fn write_job<K: Sink>(number: &JobNumber, out: &mut K) -> Result<(), Failed>
    ensures text { Writes (K.written out.old) (K.written out.new) result (job_text (job_heading number.now)) }
    ensures room { K.room out.new ≡ K.room out.old }
    ensures cause { HasCause (K.faults out.old) (K.faults out.new) result }
{
    let near_text = Decimal::new(u64::from(number.near_side()));
    let far_text = Decimal::new(u64::from(number.far_side()));
    let near = near_text.digits();
    let far = far_text.digits();
    put_all(
        out,
        &[
            b"mcbjob 1\ngrid 768\npolygon 3\n",
            near,
            b" ",
            far,
            b"\n",
            near,
            b" ",
            near,
            b"\n",
            far,
            b" ",
            near,
            b"\nwords 1\n123123\ndepth 10\nend\n",
        ],
    )
}
