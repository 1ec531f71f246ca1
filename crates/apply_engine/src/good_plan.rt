//! A plan that is ready to be carried out, by a journal on a disk.
ghost use Rattle.std.specs.Prelude.{◌≡◌, ◌↔◌, ◌+◌, ◌-◌, ◌^◌, ℕ, List, IfErr, IfOk, OnOk, map, min};
ghost use Rattle.apply.specs.Begun.{IsBeginFault, IsBegunOn, IsDiskError, IsMakingFailed};
ghost use Rattle.apply.specs.Run.{IsRunOn};
ghost use Rattle.apply.specs.RunFault.{IsDiskFault};
ghost use Rattle.apply_engine.specs.GoodPlan.{IsCarriedOut};
ghost use Rattle.disk.specs.Calls.{Stays};
ghost use Rattle.journal.specs.Creating.{IsUnmade};

use apply::{BeginError, RunError, begin, go_on};
use disk::Disk;
use journal::{OpenError, read_all};
use rules::Step;
use std::alloc::{AllocError, Global};
use std::marker::Model;
use unpack_texts::{RawStanza, lend_texts};

/// A plan that was carried out.
#[derive(Drop)]
pub struct CarriedOut {
    /// How many steps it has.
    pub steps: usize,
    /// The text of the status file that they lead to.
    pub status: Vec<u8>,
}

/// A plan that was judged good, with all that a journal takes of it: it owns that.
#[derive(Drop)]
pub struct GoodPlan {
    pub(crate) arch: Vec<u8>,
    pub(crate) start: Vec<u8>,
    pub(crate) steps: Vec<Step>,
    pub(crate) texts: Vec<Option<RawStanza>>,
    pub(crate) indices: Vec<Vec<u8>>,
}

impl Model for GoodPlan {
    ghost use Rattle.std.specs.Prelude.{◌≡◌, length, map};
    ghost use Rattle.apply.specs.Planned.{planned};
    ghost use Rattle.apply_engine.specs.GoodPlan.{ReadyPlan};

    ghost Value = { ReadyPlan };

    ghost view = { λ plan. record {
      arch = plan.arch.items;
      start = plan.start.items;
      records = planned plan.steps.items plan.texts.items;
      indices = map (λ file. file.items) plan.indices.items;
    } };

    ghost invariant = { λ plan. length plan.texts.items ≡ length plan.steps.items };
}

impl GoodPlan {
    /// The files of the indices by which it was judged, in their order.
    pub fn indices(&self) -> &[Vec<u8>]
        ensures { map (λ file. file.items) result.now ≡ self.now.indices }
    {
        self.indices.as_slice()
    }

    /// Makes the file of the disk a journal for the plan, where no journal was made of it before, as `apply::begin` does: any other file
    /// stays as it is, whatever is answered.
    pub fn begin<D: Disk>(&self, alloc: Global, disk: &mut D) -> Result<(), BeginError>
        ensures honest { D.honest disk.new ↔ D.honest disk.old }
        ensures begun { OnOk result
            (D.honest disk.old
            → IsBegunOn self.now.arch self.now.start (D.facts disk.old) (D.facts disk.new)) }
        ensures fault { IfErr result
            (λ e. D.honest disk.old
            → IsBeginFault self.now.arch self.now.start (D.facts disk.old).seen e) }
        ensures kept { D.honest disk.old → ¬ IsUnmade (D.facts disk.old).seen
            → Stays (D.facts disk.old) (D.facts disk.new) }
        ensures refused { IfErr result
            (λ e. ¬ IsMakingFailed e → D.honest disk.old
            → Stays (D.facts disk.old) (D.facts disk.new)) }
        ensures failed { IfErr result
            (λ e. IsDiskError e → D.faults disk.new ≡ min (D.faults disk.old + 1) (2 ^ 64 - 1)) }
        ensures other { IfErr result
            (λ e. ¬ IsDiskError e → D.faults disk.new ≡ D.faults disk.old) }
        ensures count { OnOk result (D.faults disk.new ≡ D.faults disk.old) }
    {
        begin(alloc, disk, self.arch.as_slice(), self.start.as_slice())
    }

    /// Reads the file of the disk, adds to its journal the steps that it hasn't, as `apply::go_on` does, and answers the status file at
    /// their end. A run that was stopped is gone on with by another one.
    pub fn go_on<D: Disk>(&self, alloc: Global, disk: &mut D) -> Result<CarriedOut, RunError<'_>>
        ensures honest { D.honest disk.new ↔ D.honest disk.old }
        ensures run { D.honest disk.old
            → IsRunOn self.now.arch self.now.start self.now.records (D.facts disk.old) result
            (D.facts disk.new) }
        ensures done { IfOk result (IsCarriedOut self.now) }
        ensures failed { IfErr result
            (λ e. IsDiskFault e → D.faults disk.new ≡ min (D.faults disk.old + 1) (2 ^ 64 - 1)) }
        ensures other { IfErr result
            (λ e. ¬ IsDiskFault e → D.faults disk.new ≡ D.faults disk.old) }
        ensures count { OnOk result (D.faults disk.new ≡ D.faults disk.old) }
    {
        let texts = match lend_texts(alloc, self.texts.as_slice()) {
            Ok(texts) => texts,
            Err(AllocError) => return Err(RunError::NotOpened(OpenError::OutOfMemory)),
        };
        let file = match read_all(alloc, disk) {
            Ok(file) => file,
            Err(e) => return Err(RunError::NotOpened(e)),
        };
        let steps = self.steps.as_slice();
        match go_on(
            alloc,
            disk,
            file.as_slice(),
            self.arch.as_slice(),
            self.start.as_slice(),
            steps,
            texts.as_slice(),
        ) {
            Ok(status) => Ok(CarriedOut {
                steps: steps.len(),
                status,
            }),
            Err(e) => Err(e),
        }
    }
}
