// Whether a read has a rival.
ghost use Rattle.std.specs.Prelude.{◌↔◌, IsTrue};
ghost use Rattle.order_test.specs.Sights.{IsNumber};
ghost use Rattle.order_test.specs.Scenes.{IsSurvey, IsScene, IsReadIn, IsRivalOf};

use crate::read_at::ReadAt;
use crate::rivals::{is_committed, origin, rival_cell};
use crate::scene::Scene;
use crate::sessions::{is_late, txn_of};
use crate::sight::sees;
use crate::survey::Survey;

/// Whether the read sees the rival, which writes a cell of it and doesn't stand before its origin.
pub fn is_rival(survey: &Survey<'_>, scene: &Scene<'_>, read: &ReadAt<'_>, rival: u32) -> bool
    requires survey { IsSurvey survey.now }
    requires scene { IsScene survey.now scene.now }
    requires read { IsReadIn survey.now read.now }
    requires rival { IsNumber survey.now.events.now rival }
    ensures { IsTrue result ↔ IsRivalOf survey.now read.now rival }
{
    let from = origin(read.event);
    if rival == from {
        return false;
    }
    if !is_late(survey, rival, from) {
        return false;
    }
    let writer = txn_of(survey, scene.txns, rival);
    if !is_committed(writer) {
        return false;
    }
    if rival_cell(read.event, writer).is_none() {
        return false;
    }
    sees(survey, scene, read, rival)
}
