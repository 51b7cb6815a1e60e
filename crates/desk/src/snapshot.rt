//! What a look shows.
ghost use Rattle.std.specs.Prelude.{◌≡◌};
ghost use Rattle.desk.specs.Plain.{is_plain};

use crate::sought::Sought;
use fit::Allocatable;
use quant::{Request, Res, SharedNode};
use std::marker::Model;
use std::sync::Arc;

/// A node, with what the pods on it use together.
#[derive(Drop)]
pub struct Row {
    /// The node's row.
    pub node: SharedNode,
    /// What the pods on the node use together.
    pub used: Res,
    // What a choice reads of most nodes stands here too, so that it needn't look where the node
    // lies.
    allocatable: Allocatable,
    plain: bool,
    ghost allocatable_is: { allocatable ≡ node.allocatable },
    ghost plain_is: { plain ≡ is_plain node },
}

/// The nodes that are there, in the order of their names' bytes, each with what the pods on it use.
pub struct Snapshot {
    // The pass that looked owns them too, so that its next look needn't make them anew.
    rows: Arc<Vec<Row>>,
    // What was found for the request for which it was looked.
    sought: Option<Sought>,
}

impl Model for Snapshot {
    ghost use Rattle.std.specs.Prelude.{List, map};
    ghost use Rattle.desk.specs.Shown.{Shown, shown};
    ghost use Rattle.desk.specs.inside.Codes.{shown_code};
    ghost use Rattle.std.specs.Coded.{coded_list};
    ghost use Rattle.std.specs.Arc.{arc_value};
    ghost use Rattle.desk.specs.Order.{AreInOrder};

    ghost Value = { List Shown };

    ghost coded = { coded_list shown_code };

    ghost view = { λ s. map shown (arc_value s.rows).items };

    ghost use Rattle.std.specs.Prelude.{IfSome};
    ghost use Rattle.desk.specs.Worth.{IsSought};

    ghost invariant = { λ s. AreInOrder (map shown (arc_value s.rows).items)
        × IfSome s.sought (IsSought (map shown (arc_value s.rows).items)) };
}

impl Row {
    ghost use Rattle.desk.specs.Shown.{shown};

    /// A node, with what the pods on it use together.
    pub fn new(node: SharedNode, used: Res) -> Self
        ensures { shown result ≡ record { node = node; used = used } }
    {
        let allocatable = Allocatable::of(node.allocatable);
        let plain = !node.unschedulable && node.taints.is_empty();
        Row {
            node,
            used,
            allocatable,
            plain,
        }
    }

    /// What the node has for pods. The node isn't looked into.
    #[inline]
    pub fn allocatable(&self) -> &Allocatable
        ensures { result.now ≡ self.now.node.allocatable }
    {
        &self.allocatable
    }

    /// Whether the node isn't marked unschedulable and has no taints. The node isn't looked into.
    #[inline]
    pub fn is_plain(&self) -> bool
        ensures { result ≡ is_plain self.now.node }
    {
        self.plain
    }
}

impl Snapshot {
    ghost use Rattle.std.specs.Prelude.{map, IfSome};
    ghost use Rattle.desk.specs.Worth.{IsSought};
    ghost use Rattle.std.specs.Arc.{arc_value};
    ghost use Rattle.desk.specs.Shown.{shown};
    ghost use Rattle.desk.specs.Order.{AreInOrder};

    pub(crate) fn new(rows: Arc<Vec<Row>>, sought: Option<Sought>) -> Self
        requires order { AreInOrder (map shown (arc_value rows).items) }
        requires sought { IfSome sought (IsSought (map shown (arc_value rows).items)) }
        ensures { result ≡ map shown (arc_value rows).items }
    {
        Snapshot { rows, sought }
    }

    /// The rows.
    pub fn rows(&self) -> &[Row]
        ensures { map shown result.now ≡ self.now }
    {
        &self.rows
    }

    /// What was found for pods of a request, if it was looked for.
    pub fn sought(&self, request: Request) -> Option<Sought>
        ensures found { IfSome result (IsSought self.now) }
        ensures request { IfSome result (λ sought. sought.request ≡ request) }
    {
        match self.sought {
            Some(sought) if sought.request == request => Some(sought),
            _ => None,
        }
    }

    /// The rows stand in the order of their nodes' names, and no two nodes have one name. It does
    /// nothing: its contract is the law.
    pub fn stands_in_order(&self)
        ensures { AreInOrder self.now }
    {
        let _rows = &self.rows;
    }
}

// By hand, so that who drops a snapshot calls this, and its parts' drops are proved here alone.
impl Drop for Snapshot {
    fn drop(self) {
        let Self {
            rows: _rows,
            sought: _,
        } = self;
    }
}
