//! What holds of every record. The functions do nothing: their contracts are the laws.
ghost use Rattle.quant.specs.declared.amount.Res.{Res};
ghost use Rattle.quant.specs.declared.objects.Node.{Node};
ghost use Rattle.quant.specs.declared.objects.Pod.{Pod};
ghost use Rattle.row_record.specs.Laws.{LabelsAreInOrder, NumbersAreReadBack, PodFieldsStand, NodeFieldsStand};

/// A record's labels are those of the row, each once, in rising order of their keys, however they
/// came.
pub fn labels_are_in_order()
    ensures { LabelsAreInOrder }
{}

/// A number of a record that fits its bytes can be read back from them.
pub fn numbers_are_read_back()
    ensures { NumbersAreReadBack }
{}

/// Each field of a record stands at its offset, which depends on how long the uid or the name is.
pub fn fields_stand()
    ensures pod { (pod : Pod) → PodFieldsStand pod }
    ensures node { (node : Node) (used : Res) → NodeFieldsStand node used }
{}
