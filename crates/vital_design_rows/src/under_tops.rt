//! What stands under a top.

ghost use Rattle.std.specs.Prelude.{◌≡◌, All};
ghost use Rattle.vital_as_read.specs.Libraries.{IsFromText};
ghost use Rattle.vital_instances.specs.Designs.{AreEntered};

use super::cells::{put_cells, put_numbers};
use super::designs::put_design;
use super::faults::{put_fault, put_refusal};
use super::instances::put_instances;
use super::library::Prepared;
use super::words::{DesignView, TopView, value};
use std::alloc::{AllocError, Global};
use vital_instances::{Instance, InstancesError, instances};
use vital_netlist::{Cells, DesignParts, elaborate};
use vital_typed_cells::TypedPackages;

/// Puts what a view shows of what stands under the top, or the first fault of its instances.
pub fn put_under_top(
    alloc: Global,
    view: TopView,
    of: &Prepared<'_>,
    text: &mut String,
) -> Result<(), AllocError>
    requires read { All IsFromText of.now.library.now }
    requires packages { of.now.packages.now ≡ of.now.library.now }
    requires net_units { of.now.net_units.now ≡ of.now.library.now }
{
    let top = value(of.words, "top=").as_bytes();
    match instances(alloc, of.library, of.packages, of.net_units, top) {
        Ok(found) => put_entered(alloc, view, of, found.as_slice(), text),
        Err(InstancesError::Fault(fault)) => put_fault(text, of.words, fault),
        Err(InstancesError::NoMemory) => Err(AllocError),
    }
}

/// The same with the instances under the top.
fn put_entered<'a>(
    alloc: Global,
    view: TopView,
    of: &'a Prepared<'a>,
    entered: &'a [Instance],
    text: &mut String,
) -> Result<(), AllocError>
    requires read { All IsFromText of.now.library.now }
    requires packages { of.now.packages.now ≡ of.now.library.now }
    requires net_units { of.now.net_units.now ≡ of.now.library.now }
    requires entered { AreEntered of.now.library.now entered.now }
{
    let typed = TypedPackages::new(alloc, of.packages)?;
    let cells = Cells::new(alloc, of.library, &typed, entered)?;
    match view {
        TopView::Instances => put_instances(alloc, of, entered, text),
        TopView::InstanceCount => write!(text, "{}\n", entered.len()),
        TopView::Cells => put_cells(text, cells.all()),
        TopView::CellNumbers => put_numbers(text, of.library, &cells),
        TopView::Design(view) => put_elaborated(alloc, view, of, entered, &cells, text),
    }
}

/// Puts what a view shows of the design of instances whose cells these are, or why there is none.
fn put_elaborated<'a>(
    alloc: Global,
    view: DesignView,
    of: &Prepared<'a>,
    entered: &'a [Instance],
    cells: &'a Cells<'a>,
    text: &mut String,
) -> Result<(), AllocError>
    requires read { All IsFromText of.now.library.now }
    requires net_units { of.now.net_units.now ≡ of.now.library.now }
    requires cells { cells.now ≡ record { files = of.now.library.now; instances = entered.now } }
    requires entered { AreEntered of.now.library.now entered.now }
{
    let parts = DesignParts {
        library: of.library,
        names: of.names,
        net_units: of.net_units,
        instances: entered,
        cells,
    };
    match elaborate(alloc, &parts) {
        Ok(design) => put_design(alloc, view, text, &design),
        Err(error) => put_refusal(text, of.words, error),
    }
}
