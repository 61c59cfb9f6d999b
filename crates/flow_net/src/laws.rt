// What flows and source sides have to do with one another.
ghost use Rattle.flow_net.specs.Values.{SidesBound, TightSidesAreCarried};

/// No flow carries more than a source side costs, and one that fills a source side carries just that. So a flow that
/// fills some source side is a greatest one, and that side's cut is least.
pub fn flow_laws()
    ensures bound { SidesBound }
    ensures tight { TightSidesAreCarried }
{}
