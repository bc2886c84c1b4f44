ghost use Rattle.std.specs.Prelude.{◌≡◌};
ghost use Rattle.std.specs.Str.{IsUtf8};
ghost use Rattle.wc_model.specs.Notices.{Outcome};
ghost use Rattle.wc_model.specs.declared.change.What.{What as WhatValue};
ghost use Rattle.wc_world.specs.Flips.{Planned};

use crate::all_lines::{all_differing, first_not_held, in_order, set_flags};
use crate::flags::flags_of;
use crate::noticed::{name_of, noticed};
use crate::world::World;
use std::alloc::Global;
use wc_lines::Flags;
use wc_model::{ChangeRefused, EventKind, Few, Flip, Notice};
use wc_text::{Handle, Items, Text};

/// What flips come to, found before anything is written.
#[derive(Drop)]
pub(crate) struct Plan {
    /// The flag that each content gets.
    flags: Flags,
    /// All buffers in order.
    order: Items<Handle>,
    /// The contents of the lines that get another flag.
    differing: Items<Handle>,
}

impl Plan {
    /// The contents of the lines that get another flag.
    fn into_differing(self) -> Items<Handle>
        ensures { result ≡ self.differing }
    {
        self.differing
    }
}

impl World {
    /// Finds what flips come to. Refused where one is of a line that is not held.
    fn plan(&self, alloc: Global, flips: &[Flip]) -> Result<Plan, ChangeRefused>
        ensures { Planned flips.now self.now result }
    {
        let flags = flags_of(alloc, flips)?;
        let order = in_order(alloc, &self.buffers)?;
        let buffers = order.as_slice();
        if let Some(handle) = first_not_held(alloc, flips, &self.held, buffers)? {
            return Err(ChangeRefused::NoLine { handle });
        }
        let differing = all_differing(alloc, &flags, &self.held, buffers)?;
        Ok(Plan {
            flags,
            order,
            differing,
        })
    }

    /// Finds what these flips come to, which are not needed any more.
    fn planned(&self, alloc: Global, flips: Items<Flip>) -> Result<Plan, ChangeRefused>
        ensures { Planned flips self.now result }
    {
        let plan = self.plan(alloc, flips.as_slice());
        drop(flips);
        plan
    }

    /// The lines get the flags that the flips set.
    pub(crate) fn flip(
        &mut self,
        alloc: Global,
        h: Handle,
        flips: Items<Flip>,
    ) -> Result<Notice, ChangeRefused>
        ensures { Outcome self.old (record { buffer = h; what = WhatValue.Flips flips })
            self.new result }
    {
        let plan = self.planned(alloc, flips)?;
        // Flips are of no one buffer, and no buffer has the null handle.
        let nowhere = Handle(0);
        let full_name = name_of(&self.buffers, alloc, nowhere)?;
        set_flags(&mut self.held, plan.order.as_slice(), &plan.flags);
        Ok(noticed(
            &self.buffers,
            alloc,
            EventKind::LineDataChanged,
            nowhere,
            full_name,
            Few::none(alloc),
            plan.into_differing(),
        ))
    }

    /// The buffer gets another full name, and the lines get the flags that the flips set.
    pub(crate) fn rename(
        &mut self,
        alloc: Global,
        h: Handle,
        name: Text,
        flips: Items<Flip>,
    ) -> Result<Notice, ChangeRefused>
        requires { IsUtf8 name }
        ensures { Outcome self.old (record { buffer = h; what = WhatValue.Rename name flips })
            self.new result }
    {
        if let Some(refused) = self.buffers.rename_refusal(alloc, h, &name) {
            drop(name);
            drop(flips);
            return Err(refused.into());
        }
        let plan = self.planned(alloc, flips)?;
        if let Err(refused) = self.buffers.rename(alloc, h, &name) {
            drop(name);
            drop(plan);
            return Err(refused.into());
        }
        set_flags(&mut self.held, plan.order.as_slice(), &plan.flags);
        Ok(noticed(
            &self.buffers,
            alloc,
            EventKind::Renamed,
            h,
            name,
            Few::none(alloc),
            plan.into_differing(),
        ))
    }
}
