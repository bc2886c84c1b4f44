ghost use Rattle.std.specs.Prelude.{◌≡◌, ◌≤◌, [], IfOk};
ghost use Rattle.std.specs.List.{flat_map};
ghost use Rattle.wc_buffers.specs.Calls.{buffer_of};
ghost use Rattle.wc_model.specs.Notices.{name_in, trim_to, Outcome};
ghost use Rattle.wc_model.specs.Order.{order};
ghost use Rattle.wc_model.specs.declared.change.What.{What as WhatValue};
ghost use Rattle.wc_model.specs.declared.notice.EventKind.TheVariants as kinds;
ghost use Rattle.wc_world.specs.Near.{numbers};
ghost use Rattle.wc_world.specs.Told.{told_with};

use crate::all_lines::in_order;
use crate::limits::{all_trims, make_room, set_limits};
use crate::noticed::{name_of, noticed_trims};
use crate::world::World;
use std::alloc::Global;
use wc_buffers::Buffers;
use wc_model::{ChangeRefused, EventKind, Few, Notice, Trim};
use wc_text::{Handle, Items, NoMemory, Text};

/// What another limit comes to, found before anything is written.
#[derive(Drop)]
struct LimitPlan {
    /// All buffers in order.
    order: Items<Handle>,
    /// What is told of no buffer.
    full_name: Text,
    /// The lines that go.
    trims: Few<Trim>,
}

/// What is noticed of another limit. It takes no memory.
fn told_limit(buffers: &Buffers, alloc: Global, plan: LimitPlan) -> Notice
    ensures { result ≡ told_with kinds.LimitSet (record { 0 = 0 }) buffers.now plan.full_name [] []
        plan.trims }
{
    let (name, trims) = (plan.full_name, plan.trims);
    noticed_trims(buffers, alloc, EventKind::LimitSet, Handle(0), name, trims)
}

impl World {
    /// Finds what another limit comes to.
    fn limit_plan(&self, alloc: Global, limit: u32) -> Result<LimitPlan, NoMemory>
        ensures order { IfOk result (λ plan. numbers plan.order ≡ order self.now.groups) }
        ensures name { IfOk result (λ plan. plan.full_name
            ≡ name_in (buffer_of (record { 0 = 0 }) self.now.groups)) }
        ensures trims { IfOk result (λ plan. plan.trims
            ≡ flat_map (trim_to limit self.now) (order self.now.groups)) }
    {
        let order = in_order(alloc, &self.buffers)?;
        // A limit is of no one buffer, and no buffer has the null handle.
        let full_name = name_of(&self.buffers, alloc, Handle(0))?;
        let trims = all_trims(alloc, &self.held, order.as_slice(), limit)?;
        Ok(LimitPlan {
            order,
            full_name,
            trims,
        })
    }

    /// Each buffer holds so many lines at most. Room for them is made in all before a line goes.
    pub(crate) fn set_limit(
        &mut self,
        alloc: Global,
        h: Handle,
        limit: u32,
    ) -> Result<Notice, ChangeRefused>
        requires { (1 ≤ limit) × (limit ≤ 4096) }
        ensures { Outcome self.old (record { buffer = h; what = WhatValue.Limit limit })
            self.new result }
    {
        let plan = self.limit_plan(alloc, limit)?;
        make_room(&mut self.held, plan.order.as_slice(), limit)?;
        set_limits(&mut self.held, plan.order.as_slice(), limit);
        self.limit = self.limit.changed(limit);
        Ok(told_limit(&self.buffers, alloc, plan))
    }
}
