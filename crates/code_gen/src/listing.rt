use crate::LabelCodes;
use label_code::OrderCode;

/// The code of an algebra's order, and of labels of it in order.
#[derive(Debug, Drop)]
pub struct Listing {
    pub order: OrderCode,
    pub labels: LabelCodes,
}
